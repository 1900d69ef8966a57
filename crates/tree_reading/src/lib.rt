//! The trees of programs as they are read, as the trees of which the meaning of programs speaks: definitions, to be
//! cited by the contracts of what runs or rewrites programs. The positions of words are left out, since no rule of
//! a run looks at them, and so is ADVANCING, which has no effect. There is no code here.
#![tactic(auto)]
