// The laws of one queue over its events, in specs/: no code, plain numbers and lists.
#![tactic(auto)]
