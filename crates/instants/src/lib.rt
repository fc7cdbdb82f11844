// What one tick and a deadline run end with. This crate has no functions: its specs say what a tick and a run mean.
#![tactic(auto)]

use state::Run;

// How a tick or a run ended: clean; or a production that did not fit its queue at a tick; or a node over threshold
// whose deadline cannot be had at a tick.
#[derive(Clone, Copy)]
pub enum Outcome {
    Clean,
    Overflowed { tick: u32, queue: u32 },
    NoDeadline { tick: u32, node: u32 },
}

// An outcome, with the state that it leaves.
#[derive(Clone, Copy)]
pub struct Ticked {
    pub outcome: Outcome,
    pub run: Run,
}
