// The trace of a deadline run, its firings in order, and its laws. This crate has no code.
#![tactic(auto)]
