// The immediate run as a history: 01's exact counts, what every state that firings lead to keeps, and the order itself. This
// crate has no code.
#![tactic(auto)]
