//! The words of COBOL that no name may be, in a table for each range of first letters, and what the operands of sums
//! and differences say about each other.
#![tactic(auto)]

mod reserved;
mod row_table;
mod word_table;

pub use reserved::{A_TO_B, C, D_TO_E, F_TO_I, J_TO_N, O_TO_Q, R, S, T_TO_Z, role_of};
pub use row_table::{ADD_ROWS, Flags, Known, Row, RowTable, SUB_ROWS, Test, Who};
pub use word_table::{WordRole, WordRow, WordTable, same_text};
