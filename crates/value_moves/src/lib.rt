//! Moves as the meaning of programs has them, from bytes to bytes: what a sender gives, and what a receiver makes of
//! it. Where the bytes lie is not looked at here.
#![tactic(auto)]

mod amount;
mod receiving;
mod sending;
mod sent;
#[cfg(test)]
mod tests;

pub use amount::Amount;
pub use receiving::{copy_text, fill, fit_text, receive_edited, receive_number, receive_text};
pub use sending::{send_figure, send_group, send_literal, send_number, send_text};
pub use sent::{MoveFault, Receiver, Sent};
