//! What the operands of statements and conditions are: the item that an identifier means, of which kind it is,
//! which of its bytes a reference takes, and by which of two ways a sender is moved or two operands are compared.
//! All that looks at operands goes by these few words: the rules on their use, labels, limits, runs.
#![tactic(auto)]

mod kind;
mod reach;
mod seen;
#[cfg(test)]
mod tests;

pub use kind::{Kind, compares_values, copies_bytes, kind_of_item};
pub use reach::{Reach, bytes_reached};
pub use seen::{Seen, is_subscript, see};
