//! The rules of statements: what each move, computation, condition and use of a program says of the dates in storage.
#![tactic(auto)]

mod conditions;
mod names;
mod statements;

pub use conditions::single;
pub use names::{add_place, add_place_use, is_name, operand_side};
pub use statements::{
    add_copy_if, add_move_if, add_statement, add_statements, area_span, file_side, origin_at,
    record_side,
};
