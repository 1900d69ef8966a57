//! The names that a form of the command line writes: whether one of them is that of a file that it reads, or stands
//! twice, and whether an earlier run has ended where this one would write.
#![tactic(auto)]

mod clash;
mod conversion;
mod path;
mod taken;
#[cfg(test)]
mod tests;

pub use clash::out_clash;
pub use conversion::{last_part, names_of_conversion};
pub use path::{name_in, name_under};
pub use taken::{names_of_run, out_taken};
