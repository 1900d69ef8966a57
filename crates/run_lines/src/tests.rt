use super::*;
use cobol_syntax::{Program, StatementId};
use portfolio::Manifest;
use std::alloc::Global;
use std::test::Fail;
use trial_run::{End, FaultKind, Shown};
use y2k_base::{Bytes, List, Memory};

fn text(alloc: Global, bytes: &[u8]) -> Result<Bytes, Memory> {
    let mut text = List::new(alloc);
    text.append(bytes)?;
    Ok(text)
}

/// A program of that name without statements.
fn program(alloc: Global, name: &[u8]) -> Result<Program, Memory> {
    Ok(Program {
        id: text(alloc, name)?,
        words: List::new(alloc),
        selects: List::new(alloc),
        files: List::new(alloc),
        storage: List::new(alloc),
        paragraphs: List::new(alloc),
    })
}

fn manifest(alloc: Global) -> Manifest {
    Manifest {
        version: 1,
        pivot: 50,
        programs: List::new(alloc),
        copybooks: List::new(alloc),
        seeds: None,
        window: List::new(alloc),
        files: List::new(alloc),
        jobs: List::new(alloc),
    }
}

/// A piece of two parts.
fn piece(alloc: Global, first: &[u8], second: &[u8]) -> Result<Shown, Memory> {
    let mut parts = List::new(alloc);
    parts.push(text(alloc, first)?)?;
    parts.push(text(alloc, second)?)?;
    let at = StatementId {
        program: 0,
        number: 0,
    };
    Ok(Shown { at, parts })
}

#[test]
fn pieces_come_before_the_ends_of_programs(rt: HostRuntime) -> Result<(), Fail> {
    let alloc = rt.alloc();
    let mut programs = List::new(alloc);
    programs.push(program(alloc, b"P1")?)?;
    programs.push(program(alloc, b"P2")?)?;
    let mut shown = List::new(alloc);
    shown.push(piece(alloc, b"YEAR ", b"99")?)?;
    shown.push(piece(alloc, b"", b"")?)?;
    let manifest = manifest(alloc);
    let ends = [End::Stopped, End::Running];
    let numbers = [1, 0, 1];
    let lines = job_lines(
        alloc,
        &manifest,
        programs.items(),
        &numbers,
        shown.items(),
        &ends,
    )?;
    assert!(rt; lines.items() == b"YEAR 99\n\nP2 stopped\nP1 running\n".as_slice());
    Ok(())
}

#[test]
fn a_job_runs_where_a_program_does(rt: HostRuntime) {
    let at = StatementId {
        program: 0,
        number: 0,
    };
    let kind = FaultKind::Data;
    assert!(rt; job_status(&[]) == 0);
    assert!(rt; job_status(&[End::Stopped, End::Stopped]) == 0);
    assert!(rt; job_status(&[End::Stopped, End::Fault { kind, at }]) == 0);
    assert!(rt; job_status(&[End::Stopped, End::Running]) == 9);
}
