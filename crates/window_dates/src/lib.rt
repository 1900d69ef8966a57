//! What an operand of a comparison or a sum shows of dates: its years, the one in its first two digits or bytes, those with a
//! window of a hundred years, and whether a literal lies in such a window.
#![tactic(auto)]

mod literal;
mod operand;
#[cfg(test)]
mod tests;
mod window;

pub use literal::{is_digits_literal, is_in_window, literal_text};
pub use operand::{compares_values, field_of, lead_year, years_of};
pub use window::{WindowedYear, is_windowed, window_in, window_of, window_part, windowed};
