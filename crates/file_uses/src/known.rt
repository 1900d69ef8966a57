ghost use Rattle.std.specs.Prelude.{◌≡◌, IfOk, OnOk};
ghost use Rattle.name_tables.specs.Table.{with_value};
ghost use Rattle.file_uses.specs.Names as spec;

use name_tables::NameTable;
use portfolio::Named;
use std::alloc::Global;
use y2k_base::Memory;

/// The external names that are known, each with the name of its file. Where all are, each is its own file's name.
#[derive(Drop)]
pub(crate) struct KnownFiles<'a> {
    all: bool,
    names: NameTable<'a, &'a [u8]>,
}

impl<'a> KnownFiles<'a> {
    pub(crate) fn of(alloc: Global, files: Option<&'a [Named]>) -> Result<KnownFiles<'a>, Memory>
        ensures known { IfOk result (λ known. spec.known_by known ≡ spec.is_known (spec.list_of files.entry)) }
        ensures names { IfOk result (λ known. spec.name_by known ≡ spec.name_of (spec.list_of files.entry)) }
    {
        match files {
            Some(files) => {
                let names = names_of(alloc, files)?;
                Ok(KnownFiles { all: false, names })
            }
            None => Ok(KnownFiles {
                all: true,
                names: NameTable::new(alloc),
            }),
        }
    }

    /// Whether an external name is known.
    pub(crate) fn has(&self, external: &[u8]) -> bool
        ensures { result ≡ spec.known_by self.now external.now }
    {
        if self.all {
            true
        } else {
            match self.names.get(external) {
                Some(_) => true,
                None => false,
            }
        }
    }

    /// The name of the file of that external name.
    pub(crate) fn name_of<'b>(&'b self, external: &'b [u8]) -> &'b [u8]
        ensures { result.now ≡ spec.name_by self.now external.now }
    {
        match self.names.get(external) {
            Some(name) => name,
            None => external,
        }
    }
}

fn names_of<'a>(alloc: Global, files: &'a [Named]) -> Result<NameTable<'a, &'a [u8]>, Memory>
    ensures { IfOk result (λ names. spec.shown names ≡ spec.names_in files.now) }
{
    let mut names = NameTable::new(alloc);
    let mut rest = files;
    while let [file, more @ ..] = rest {
        put(&mut names, file.key.items(), file.name.items())?;
        rest = more;
    }
    Ok(names)
}

fn put<'a>(names: &mut NameTable<'a, &'a [u8]>, key: &'a [u8], name: &'a [u8]) -> Result<(), Memory>
    ensures { OnOk result (spec.shown names.new ≡ with_value (spec.shown names.old) key.now name.now) }
{
    names.put(key, name)?;
    Ok(())
}
