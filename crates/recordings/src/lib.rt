// What a recording tick and a recording run end with. This crate has no functions: its specs say what they mean.
#![tactic(auto)]

use losses::Losses;
use state::Run;

// How a recording tick or run ended: clean; or a node over threshold whose deadline cannot be had at a tick; or, the list
// being full, a production that did not fit its queue at a tick.
#[derive(Clone, Copy)]
pub enum RecordOutcome {
    Clean,
    NoDeadline { tick: u32, node: u32 },
    ListFull { tick: u32, queue: u32 },
}

// An outcome, with the state and the list that it leaves.
#[derive(Clone, Copy)]
pub struct Recorded {
    pub outcome: RecordOutcome,
    pub run: Run,
    pub losses: Losses,
}
