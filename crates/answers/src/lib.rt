//! The exit statuses of the program, and its answers: a text that is printed, and the status that goes
//! with it.
#![tactic(auto)]

mod lines;

ghost use Rattle.std.specs.Prelude.{◌≡◌, ◌≢◌, ◌≤◌};
ghost use Rattle.shelf.specs.Causes.{Rose};
ghost use Rattle.answers.specs.Said.{IsSaid};

pub use lines::{refused_name, refused_place, shelf_fault};
use shelf::{Sink, SinkErr};

/// The work is done.
pub const DONE: u8 = 0;

/// A byte has unlike labels.
pub const CONFLICT: u8 = 1;

/// The words are none of the forms of the command line.
pub const USAGE: u8 = 2;

/// An input has no reading.
pub const REFUSED: u8 = 3;

/// Something stands against the conversion.
pub const LIMIT: u8 = 4;

/// The shelf failed.
pub const SHELF_FAULT: u8 = 6;

/// The sink failed.
pub const SINK_FAULT: u8 = 7;

/// There was no memory left.
pub const NO_MEMORY: u8 = 8;

/// Prints a text and answers the status, or that of the fault that came while it was printed.
pub fn say<K: Sink>(text: &[u8], status: u8, out: &mut K) -> u8
    requires { status ≢ 7 }
    ensures said { IsSaid status text.now (K.taken out.old) (K.taken out.new) result }
    ensures sink_fault { result ≡ 7 → Rose (K.faults out.old) (K.faults out.new) }
    ensures later { K.faults out.old ≤ K.faults out.new }
{
    match out.put(text) {
        Ok(()) => status,
        Err(SinkErr::Failed) => SINK_FAULT,
        Err(SinkErr::Memory) => NO_MEMORY,
    }
}
