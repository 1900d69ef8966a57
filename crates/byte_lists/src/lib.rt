//! Lists of bytes and of decimal digits: definitions that the meaning of programs and the images of records
//! share. There is no code here.
#![tactic(auto)]
