ghost use Rattle.std.specs.Prelude.{◌≡◌, ◌≤◌, ◌+◌, ◌++◌, ◌∷◌, [], IfOk, IfErr, OnOk, IfSome, IfNone};
ghost use Rattle.data_layout.specs.Index.{IsReady};
ghost use Rattle.program_names.specs.Areas.{bytes_of};
ghost use Rattle.program_texts.specs.Programs as spec;

use crate::line::Source;
use crate::program::{layout_of, tree_of};
use crate::progress::Progress;
use cobol_syntax::Program;
use copy_origins::Books;
use data_layout::Layout;
use program_names::{check_areas, check_names};
use program_reader::ReadFault;
use program_uses::check_uses;
use std::alloc::Global;
use y2k_base::{List, Memory};

/// A program with its layout. `bytes` are those of all areas up to its last.
pub(crate) struct Member {
    pub(crate) program: Program,
    pub(crate) layout: Layout,
    pub(crate) bytes: u64,
}

/// Programs with their layouts, in the same order.
pub struct Members {
    pub programs: List<Program>,
    pub layouts: List<Layout>,
}

impl Drop for Member {
    fn drop(self) {
        let Member {
            program: _program,
            layout: _layout,
            bytes: _,
        } = self;
    }
}

impl Drop for Members {
    fn drop(self) {
        let Members {
            programs: _programs,
            layouts: _layouts,
        } = self;
    }
}

impl Members {
    /// The programs and their layouts.
    pub fn into_parts(self) -> (List<Program>, List<Layout>)
        ensures { result ≡ (self.programs, self.layouts) }
    {
        let Members { programs, layouts } = self;
        (programs, layouts)
    }

    fn add(&mut self, member: Member) -> Result<(), Memory>
        ensures programs { OnOk result (self.new.programs ≡ self.old.programs ++ member.program ∷ []) }
        ensures layouts { OnOk result (self.new.layouts ≡ self.old.layouts ++ member.layout ∷ []) }
    {
        let (program, layout) = member.into_parts();
        self.programs.push(program)?;
        self.layouts.push(layout)?;
        Ok(())
    }
}

impl Member {
    fn into_parts(self) -> (Program, Layout)
        ensures { result ≡ (self.program, self.layout) }
    {
        let Member {
            program,
            layout,
            bytes: _,
        } = self;
        (program, layout)
    }
}

/// Checks a program that is laid out: the bytes of all areas, then the names, then the uses. Gives the bytes of
/// all areas up to its last.
fn check_laid(
    alloc: Global,
    before: &Progress,
    program: &Program,
    layout: &Layout,
) -> Result<u64, ReadFault>
    requires most { before.now.bytes ≤ 4000000 }
    requires ready { IsReady layout.now }
    ensures bytes { IfOk result (λ bytes. bytes ≡ before.now.bytes + bytes_of layout.now.areas) }
    ensures most { IfOk result (λ bytes. bytes ≤ 4000000) }
    ensures right { OnOk result (spec.IsFree (spec.before_of before.now) program.now layout.now) }
    ensures fault { IfErr result (spec.IsRefusedLaid (spec.before_of before.now) program.now layout.now) }
{
    match check_areas(program, layout, before.bytes) {
        Ok(bytes) => match check_named(alloc, before, program, layout) {
            Ok(()) => Ok(bytes),
            Err(fault) => Err(fault),
        },
        Err(fault) => Err(fault),
    }
}

fn check_named(
    alloc: Global,
    before: &Progress,
    program: &Program,
    layout: &Layout,
) -> Result<(), ReadFault>
    requires ready { IsReady layout.now }
    ensures right { OnOk result (spec.IsNamed (spec.before_of before.now) program.now layout.now) }
    ensures fault { IfErr result (spec.IsRefusedNamed (spec.before_of before.now) program.now layout.now) }
{
    match check_names(alloc, &before.names, program) {
        Ok(()) => match check_uses(alloc, program, layout) {
            Ok(()) => Ok(()),
            Err(fault) => Err(fault),
        },
        Err(fault) => Err(fault),
    }
}

/// Lays a program out and checks it.
fn member_of(alloc: Global, before: &Progress, program: Program) -> Result<Member, ReadFault>
    requires most { before.now.bytes ≤ 4000000 }
    ensures program { IfOk result (λ member. member.program ≡ program) }
    ensures bytes { IfOk result (λ member. member.bytes ≡ before.now.bytes + bytes_of member.layout.areas) }
    ensures most { IfOk result (λ member. member.bytes ≤ 4000000) }
    ensures laid { IfOk result (λ member. spec.IsLaid before.now.area program member.layout) }
    ensures right { IfOk result (λ member. spec.IsFree (spec.before_of before.now) program member.layout) }
    ensures fault { IfErr result (spec.IsRefusedTree (spec.before_of before.now) program) }
{
    match layout_of(alloc, &program, before.area) {
        Ok(layout) => match check_laid(alloc, before, &program, &layout) {
            Ok(bytes) => Ok(Member {
                program,
                layout,
                bytes,
            }),
            Err(fault) => Err(fault),
        },
        Err(fault) => Err(fault),
    }
}

/// Reads the program of a source, lays it out and checks it.
fn read_member(
    alloc: Global,
    books: &Books,
    source: &Source,
    before: &Progress,
) -> Result<Member, ReadFault>
    requires most { before.now.bytes ≤ 4000000 }
    ensures member { IfOk result (λ member. spec.IsMember books.now.list (spec.before_of before.now) source.now member.program member.layout) }
    ensures bytes { IfOk result (λ member. member.bytes ≡ before.now.bytes + bytes_of member.layout.areas) }
    ensures most { IfOk result (λ member. member.bytes ≤ 4000000) }
    ensures fault { IfErr result (spec.IsRefused books.now.list (spec.before_of before.now) source.now) }
{
    match tree_of(alloc, books, source, before.programs) {
        Ok(program) => match member_of(alloc, before, program) {
            Ok(member) => Ok(member),
            Err(fault) => Err(fault),
        },
        Err(fault) => Err(fault),
    }
}

/// The programs of sources, in their order, with their layouts. Each text is expanded with the copybooks, read, laid
/// out and checked before the next one; the first fault is named. Areas are numbered over all programs.
pub fn read_members(alloc: Global, books: &Books, sources: &[Source]) -> Result<Members, ReadFault>
    ensures members { IfOk result (λ members. spec.AreMembers books.now.list spec.nothing sources.now members.programs members.layouts) }
    ensures fault { IfErr result (spec.HasRefusal books.now.list sources.now) }
{
    let mut members = Members {
        programs: List::new(alloc),
        layouts: List::new(alloc),
    };
    let mut progress = Progress::new(alloc);
    let mut rest = sources;
    while let Some((source, more)) = first_source(rest) {
        let member = read_member(alloc, books, source, &progress)?;
        progress.add(alloc, &member)?;
        members.add(member)?;
        rest = more;
    }
    Ok(members)
}

fn first_source(sources: &[Source]) -> Option<(&Source, &[Source])>
    ensures some { IfSome result (λ first. sources.now ≡ first.0.now ∷ first.1.now) }
    ensures none { IfNone result (sources.now ≡ []) }
{
    match sources {
        [] => None,
        [source, more @ ..] => Some((source, more)),
    }
}
