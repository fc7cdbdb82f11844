// Deadlines and their laws. This crate has no code.
#![tactic(auto)]
