ghost use Rattle.std.specs.Prelude.{◌≡◌, IfOk, OnOk};
ghost use Rattle.program_uses.specs.Names as spec;

use cobol_syntax::{FileEntry, Paragraph, Select};
use operand_uses::NameKind;
use std::alloc::Global;
use std::collections::BTreeMap;
use y2k_base::{Bytes, Memory};

/// Names of things of one kind, and whether more than one thing has the name.
#[derive(Drop)]
pub(crate) struct NameMap {
    more: BTreeMap<Vec<u8>, bool>,
}

impl NameMap {
    fn new(alloc: Global) -> NameMap
        ensures { spec.known result ≡ spec.no_names }
    {
        NameMap {
            more: BTreeMap::new(alloc),
        }
    }

    /// What is wrong with a name that is to mean one of these things.
    pub(crate) fn wrong(&self, name: &Bytes) -> Option<NameKind>
        ensures { result ≡ spec.known self.now name.now }
    {
        match self.more.get(name.items()) {
            None => Some(NameKind::Unknown),
            Some(false) => None,
            Some(true) => Some(NameKind::Twice),
        }
    }

    fn add(&mut self, alloc: Global, name: &Bytes) -> Result<(), Memory>
        ensures { OnOk result (spec.known self.new ≡ spec.with_name (spec.known self.old) name.now) }
    {
        let again = self.more.contains_key(name.items());
        let mut key = Vec::new(alloc);
        key.extend_from_slice(name.items())?;
        self.more.insert(key, again)?;
        Ok(())
    }

    pub(crate) fn of_selects(alloc: Global, selects: &[Select]) -> Result<NameMap, Memory>
        ensures { IfOk result (λ names. spec.known names ≡ spec.with_selects spec.no_names selects.now) }
    {
        let mut names = NameMap::new(alloc);
        for select in selects {
            names.add(alloc, &select.name)?;
        }
        Ok(names)
    }

    pub(crate) fn of_files(alloc: Global, files: &[FileEntry]) -> Result<NameMap, Memory>
        ensures { IfOk result (λ names. spec.known names ≡ spec.with_files spec.no_names files.now) }
    {
        let mut names = NameMap::new(alloc);
        for file in files {
            names.add(alloc, &file.name)?;
        }
        Ok(names)
    }

    /// Sections are among them.
    pub(crate) fn of_paragraphs(alloc: Global, paragraphs: &[Paragraph]) -> Result<NameMap, Memory>
        ensures { IfOk result (λ names. spec.known names ≡ spec.with_paragraphs spec.no_names paragraphs.now) }
    {
        let mut names = NameMap::new(alloc);
        for paragraph in paragraphs {
            names.add(alloc, &paragraph.name)?;
        }
        Ok(names)
    }
}
