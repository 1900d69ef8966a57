//! The layouts of a portfolio, as the meaning of programs speaks of them: definitions and laws, to be cited by the
//! contracts of what runs programs. Items, condition-names and areas are those that `data_layout` lays out; what is
//! left out are the levels, the positions of words and the index of names, at which no rule of a run looks. There is
//! no code here.
#![tactic(auto)]
