ghost use Rattle.std.specs.Prelude.{◌≡◌, [], IfOk, IfErr, OnOk};
ghost use Rattle.data_layout.specs.Sections.{IsLayout};
ghost use Rattle.data_layout.specs.Faults.{faults_of, IsFirst};
ghost use Rattle.data_layout.specs.Index.{IsReady};

use crate::check::check_program;
use crate::fault::LayoutFault;
use crate::item::Layout;
use crate::sections::lay_program;
use cobol_syntax::Program;
use std::alloc::Global;
use y2k_base::AreaId;

/// The layout of a program, whose areas are numbered from that one on: those of its files first, then those of
/// working storage. Lengths of 2 to the 128 or more, and numbers of items and areas past 32 bits, are want of memory.
pub fn lay_out(alloc: Global, program: &Program, first: AreaId) -> Result<Layout, LayoutFault>
    ensures layout { IfOk result (IsLayout first program.now) }
    ensures ready { IfOk result IsReady }
    ensures right { OnOk result (faults_of program.now ≡ []) }
    ensures fault { IfErr result (λ fault. IsFirst fault (faults_of program.now)) }
{
    check_program(alloc, program)?;
    let layout = lay_program(alloc, program, first)?;
    Ok(layout)
}
