// The slots past n, and the entries past the count, of recording ticks and runs: no answer reads them, and none changes them. This crate has no code.
#![tactic(auto)]
