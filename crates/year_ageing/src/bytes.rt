ghost use Rattle.std.specs.Prelude.{◌≡◌, ◌+◌, ◌<◌, ◌≤◌, length, slice_index};
ghost use Rattle.year_image.specs.Packing.{all_equal};
ghost use Rattle.byte_lists.specs.Part.{with_part};

/// Writes bytes at a place.
pub(crate) fn copy_at(into: &mut [u8], at: usize, bytes: &[u8])
    requires { at + length bytes.now ≤ length into.old }
    ensures { into.new ≡ with_part into.old at bytes.now }
{
    into[at..at + bytes.len()].copy_from_slice(bytes);
}

/// Whether the first byte is all of them.
pub(crate) fn is_one_byte(bytes: &[u8]) -> bool
    requires { 0 < length bytes.now }
    ensures { result ≡ all_equal (slice_index bytes.now 0) bytes.now }
{
    let first = bytes[0];
    for byte in bytes {
        if *byte != first {
            return false;
        }
    }
    true
}
