//! What programs mean: definitions, to be cited by the contracts of the interpreter and by the theorem on the
//! runs of converted programs. There is no code here.
//!
//! A program is a tree without the positions of its words. Its items come from its entries, its storage from
//! its items; a state has what is left to do, the open PERFORMs, storage, files and what was shown; a step is a
//! function from states to states, and a job runs programs one after the other. The language is a profile of
//! ISO 1989:1985; where that leaves a result open, what is said here is this project's choice.
#![tactic(auto)]
