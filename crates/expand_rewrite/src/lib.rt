//! Programs written anew for years with their century: PICTUREs, numbers of bytes and literals, MOVEs of literals that become
//! several ones, and dates that are accepted.
#![tactic(auto)]

mod accepts;
mod moves;
mod old;
mod statements;
#[cfg(test)]
mod tests;
mod whole;

pub use whole::expand;
