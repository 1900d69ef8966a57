ghost use Rattle.std.specs.Prelude.{◌≡◌, IfOk};
ghost use Rattle.layout_reading.specs.Kinds.{read_kind};
ghost use Rattle.program_meaning.specs.Kind as kind;
ghost use Rattle.program_meaning.specs.Layout as meant;
ghost use Rattle.program_meaning.specs.Moves.{sent};
ghost use Rattle.program_meaning.specs.Storage as meant_storage;
ghost use Rattle.storage_start.specs.Literals.{IsLiteral};
ghost use Rattle.tree_reading.specs.Reading.{read_operand};
ghost use Rattle.value_moves.specs.Given.{receiver_of, IsFor, Answers};

use cobol_syntax::Operand;
use data_layout::{Class, Item};
use std::alloc::Global;
use value_moves::{MoveFault, Receiver, Sent, send_figure, send_literal, send_text};

/// What a VALUE looks at in its item.
pub(crate) fn receiver(item: &Item) -> Receiver
    ensures { result ≡ receiver_of (read_kind item.now) }
{
    match item.class {
        Class::Group => Receiver::Group,
        Class::Text => Receiver::Text,
        Class::Edited => Receiver::Aligned,
        Class::Number => Receiver::Aligned,
    }
}

/// What a literal or a figure gives, whatever the storage holds.
pub(crate) fn send(alloc: Global, operand: &Operand, to: Receiver) -> Result<Sent, MoveFault>
    requires { IsLiteral operand.now }
    ensures given { (layout : meant.Layout) (store : meant_storage.Storage) (k : kind.Kind) → receiver_of k ≡ to →
        Answers result (sent layout store (read_operand operand.now) k) }
    ensures suits { IfOk result (IsFor to) }
{
    match operand {
        Operand::Place(_) => unreachable!(),
        Operand::Number {
            value,
            digits,
            at: _,
        } => send_literal(alloc, *value, *digits, to),
        Operand::Text { bytes, at: _ } => send_text(alloc, bytes.items(), to),
        Operand::Figure { byte, at: _ } => Ok(send_figure(*byte, to)),
    }
}
