// The slots past n, of ticks and of deadline runs: no answer reads them, and no tick changes them. This crate has no code.
#![tactic(auto)]
