//! When a run is tame, so that the converted portfolio has to follow it: definitions, to be cited by the theorem on the
//! runs of converted programs. There is no code here.
//!
//! All states of a tame run have tame years in their storage and files, what is computed for a year is a year, and what is
//! written for windows meets digits. A program that converts its dates is asked to do right by such runs alone: any other
//! reads bytes as a year that are none, or leaves the hundred years that its two digits stand for.
#![tactic(auto)]
