ghost use Rattle.std.specs.Prelude.{◌≡◌, ◌≢◌};
ghost use Rattle.shelf.specs.Causes.{Rose};
ghost use Rattle.convert_command.specs.Status as spec;

use answers::{NO_MEMORY, say};
use shelf::Sink;
use y2k_base::{Bytes, Memory};

/// Prints a line with that status, if there was memory for it.
pub(crate) fn say_line<K: Sink>(line: Result<Bytes, Memory>, status: u8, sink: &mut K) -> u8
    requires { status ≢ 7 }
    ensures asked { spec.IsAsked status result }
    ensures sink_fault { result ≡ 7 → Rose (K.faults sink.old) (K.faults sink.new) }
{
    match line {
        Ok(line) => say(line.items(), status, sink),
        Err(_) => NO_MEMORY,
    }
}
