//! The trees that programs are read as: the program with its files, storage and paragraphs, statements,
//! conditions, expressions and identifiers. Each tree has a twin, equal to it. A tree that owns something
//! can be taken apart only here, by the methods that take `self`.
#![tactic(auto)]

mod cond;
mod expr;
mod place;
mod program;
mod statement;
#[cfg(test)]
mod tests;

pub use cond::{CondForm, Condition, Rel};
pub use expr::{Expr, Operand};
pub use place::{Part, Place, Sub};
pub use program::{Entry, FileEntry, Paragraph, Program, Range, Select, Sentence, Usage};
pub use statement::{
    Branch, Control, Form, Mode, NamePair, Register, Statement, StatementId, Vary,
};
