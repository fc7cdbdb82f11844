// Histories of firings and their laws: what each queue has held after any permitted order, and along a prompt one. This
// crate has no code.
#![tactic(auto)]
