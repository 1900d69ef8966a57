//! Records and files of fixed records in which each two-digit year gets its century: the image of a record by
//! a table of the places where its years stand, and that of a whole file of a shelf.
#![tactic(auto)]

mod buffers;
mod bytes;
mod cut;
mod fault;
mod file;
mod packed;
mod pair;
mod record;
#[cfg(test)]
mod tests;

pub use cut::{Cut, CutKind, Cuts};
pub use fault::ConvertFault;
pub use file::{check_file, convert_file};
pub use record::{Untame, image_record};
