//! The converter's command line: which form the words have, and the command that answers it.
#![tactic(auto)]

mod command;
#[cfg(test)]
mod convert_tests;
#[cfg(test)]
mod fixture;
#[cfg(test)]
mod manifest_tests;
#[cfg(test)]
mod order_tests;
#[cfg(test)]
mod plan_tests;
#[cfg(test)]
mod portfolio_tests;
#[cfg(test)]
mod run_tests;
mod run_words;
#[cfg(test)]
mod tests;
mod top;
#[cfg(test)]
mod walk_tests;
#[cfg(test)]
mod walks;
mod write_words;
#[cfg(test)]
mod written_tests;

use answers::NO_MEMORY;
use shelf::{FolderShelf, StdSink};
use std::alloc::Global;
use std::io::ErrorKind;
use std::process::ExitCode;
use std::{env, io};
pub use top::annodomini;

/// The words after the program's name. Words that are no text have no form, and so are none.
fn words_of(rt: &HostRuntime, alloc: Global) -> io::Result<Vec<String>> {
    let mut words = Vec::new(alloc);
    match env::args(rt) {
        Ok(all) => {
            for word in all.skip(1) {
                words.push(word)?;
            }
            Ok(words)
        }
        Err(error) if error.kind() == ErrorKind::InvalidData => Ok(words),
        Err(error) => Err(error),
    }
}

/// Does what the words ask for over the files under the current folder and standard output.
fn run(rt: &HostRuntime, alloc: Global) -> io::Result<u8> {
    let words = words_of(rt, alloc)?;
    let folder = String::from_str(alloc, ".")?;
    let mut shelf = FolderShelf::new(rt.clone()?, folder);
    let mut out = StdSink::new(rt.clone()?);
    Ok(annodomini(alloc, words.as_slice(), &mut shelf, &mut out))
}

fn main(rt: HostRuntime) -> ExitCode {
    match run(&rt, rt.alloc()) {
        Ok(status) => ExitCode::from(status),
        Err(_) => ExitCode::from(NO_MEMORY),
    }
}
