// The slots past n, of chains and of run states: no answer reads them, and no firing changes them. This crate has no
// code.
#![tactic(auto)]
