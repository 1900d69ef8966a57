//! What a record becomes when its two-digit years get their century, and when it can: definitions, to be cited
//! by the contracts of other crates, and their laws, to be cited by proofs. There is no code here.
//!
//! A record is a list of pieces from left to right: a byte, the two bytes of a year, or the bytes of a packed
//! number with a year. The image of a year is 19 and the year; bytes without digits, all of one kind, become
//! more of them. A year with a pivot belongs to a window of a hundred years and stays. All of this is this
//! project's choice; packed numbers have two digits a byte and a sign in the last half-byte.
#![tactic(auto)]
