ghost use Rattle.std.specs.Prelude.{◌≡◌, ◌≤◌, ◌++◌, [], length, map, IfOk, OnOk};
ghost use Rattle.reports.specs.Rows.{IsBetweenRows, row_text, written};

use csv::Writer;
use std::alloc::Global;
use y2k_base::{Bytes, List, Memory};

/// Rows of fields, written one after the other.
#[derive(Drop)]
pub(crate) struct Rows {
    writer: Writer<Vec<u8>>,
}

impl Rows {
    /// No row yet. It takes no memory.
    pub(crate) fn new(alloc: Global) -> Rows
        ensures between { IsBetweenRows result }
        ensures empty { written result ≡ [] }
    {
        Rows {
            writer: Writer::from_writer(Vec::new(alloc)),
        }
    }

    /// Writes a row.
    pub(crate) fn push(&mut self, fields: &[&[u8]]) -> Result<(), Memory>
        requires between { IsBetweenRows self.old }
        requires several { 2 ≤ length fields.now }
        ensures between { OnOk result (IsBetweenRows self.new) }
        ensures row { OnOk result (written self.new ≡ written self.old ++ row_text (map (λ field. field.now) fields.now)) }
    {
        match self.writer.write_fields(fields) {
            Ok(()) => Ok(()),
            Err(_) => Err(Memory),
        }
    }

    /// The text of all rows.
    pub(crate) fn into_bytes(self) -> Result<Bytes, Memory>
        ensures { IfOk result (λ text. text ≡ written self) }
    {
        let Rows { writer } = self;
        match writer.into_inner() {
            Ok(text) => Ok(List::from_vec(text)),
            Err(_) => Err(Memory),
        }
    }
}
