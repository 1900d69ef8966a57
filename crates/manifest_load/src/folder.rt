ghost use Rattle.std.specs.Prelude.{◌≡◌};
ghost use Rattle.manifest_load.specs.Folder as spec;

/// The folder of a file, which its name begins with: all up to and with the last slash, or nothing.
pub fn folder_of(name: &[u8]) -> &[u8]
    ensures { result.now ≡ spec.folder_of name.now }
{
    let mut folder = name;
    while let [front @ .., last] = folder {
        if *last == b'/' {
            return folder;
        }
        folder = front;
    }
    folder
}
