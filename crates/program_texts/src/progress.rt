ghost use Rattle.std.specs.Prelude.{◌≡◌, ◌≤◌, ◌+◌, length, OnOk, IfOk};
ghost use Rattle.program_names.specs.Areas.{bytes_of};
ghost use Rattle.program_texts.specs.Programs as spec;

use crate::line::next;
use crate::member::Member;
use name_tables::Names;
use std::alloc::Global;
use y2k_base::{AreaId, Memory};

/// What stands before a program of a portfolio: how many programs, the number of the next area, the bytes of all
/// areas, and the names of the programs.
#[derive(Drop)]
pub(crate) struct Progress {
    pub(crate) programs: u32,
    pub(crate) area: AreaId,
    pub(crate) bytes: u64,
    pub(crate) names: Names,
}

impl Progress {
    pub(crate) fn new(alloc: Global) -> Progress
        ensures { spec.before_of result ≡ spec.nothing }
    {
        Progress {
            programs: 0,
            area: AreaId(0),
            bytes: 0,
            names: Names::new(alloc),
        }
    }

    /// Adds a program.
    pub(crate) fn add(&mut self, alloc: Global, member: &Member) -> Result<(), Memory>
        requires { member.now.bytes ≡ self.old.bytes + bytes_of member.now.layout.areas }
        ensures { OnOk result (spec.before_of self.new ≡ spec.after (spec.before_of self.old) member.now.program member.now.layout) }
    {
        self.programs = next(self.programs)?;
        self.area = next_area(self.area, member.layout.areas.len())?;
        self.bytes = member.bytes;
        self.names.add(alloc, member.program.id.items())?;
        Ok(())
    }
}

fn next_area(area: AreaId, count: usize) -> Result<AreaId, Memory>
    ensures { IfOk result (λ next. next ≡ record { 0 = area.0 + count }) }
{
    match u32::try_from(count) {
        Ok(count) => match area.0.checked_add(count) {
            Some(next) => Ok(AreaId(next)),
            None => Err(Memory),
        },
        Err(_) => Err(Memory),
    }
}
