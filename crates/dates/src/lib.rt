// Deadline questions: when a firing of a node is due. The index is followed down to the source, a queue at a time, by
// functions that call themselves for the node before.
#![tactic(auto)]

ghost use Rattle.std.specs.Prelude.{◌≡◌, ◌+◌, ◌-◌, ◌*◌, ◌/◌, ◌≤◌};
ghost use Rattle.dates.specs.Question.{due_said, deadline_answer};
ghost use Rattle.dates.specs.Dues.{Step, Dues, DueGives, FollowedGives, PassingGives, Dated, DatedGives};

use chain::{Chain, Reason, Refused};
use flow::{CONSUME, COUNTS, LENGTH, PRODUCE};
use sizing::{CAPACITY, PERIOD, PLAN};

// What stands for a deadline that cannot be had, in `dated_of` and in the table of deadlines that a run lends; every other
// is below it.
pub const NEVER: u64 = 18446744073709551615;

// The largest index of a firing.
const LIMIT: u64 = 4294967295;

// The deadline of a firing in ticks, with the refusal that the call ended with, if any, as C has it.
#[repr(C)]
#[derive(Clone, Copy)]
pub struct DeadlineAnswer {
    pub number: u32,
    pub place: u32,
    pub due: u64,
}

impl From<Result<u64, Refused>> for DeadlineAnswer {
    ghost from_gives = { λ r a. a ≡ due_said r };

    fn from(outcome: Result<u64, Refused>) -> DeadlineAnswer {
        match outcome {
            Ok(due) => DeadlineAnswer {
                number: 0,
                place: 0,
                due,
            },
            Err(refused) => DeadlineAnswer {
                number: refused.number(),
                place: refused.place,
                due: 0,
            },
        }
    }
}

// The deadline of a node's firing of this index, or the first of 2, 4, 5, 6, 7, 8, 11 and 13 that refuses the question.
#[tactic(auto, using(chain::proofs::Passing::passing, crate::proofs::QuestionLaws::asking), unfolding(crate::specs::Question::deadline_answer))]
pub fn deadline(chain: Chain, node: u32, index: u32) -> Result<u64, Refused>
    ensures { due_said result ≡ deadline_answer chain node index }
{
    let mut plan = [0; PLAN];
    sizing::planned_for_run(chain, &mut plan)?;
    chain::test(Reason::NodeNotReady, node, (chain.n < node) | (index == 0))?;
    let flow = flow::started(&chain);
    due(&plan, &flow, node as usize, index)
}

// The deadline of node i's next firing, or NEVER.
pub fn dated(plan: &[u32; PLAN], flow: &[u32; LENGTH], i: usize) -> u64
    requires { Dated plan.now flow.now i }
    ensures { DatedGives plan.now flow.now i result }
{
    followed(plan, flow, i, flow[COUNTS + i] + 1)
}

// The deadline of node i's k-th firing, or 13 of the first node on the way down to the source whose index passes the limit.
pub fn due(plan: &[u32; PLAN], flow: &[u32; LENGTH], i: usize, k: u32) -> Result<u64, Refused>
    requires { Dues plan.now flow.now i k }
    ensures { DueGives plan.now flow.now i k result }
{
    let ticks = followed(plan, flow, i, k);
    if ticks == NEVER {
        return Err(Refused {
            reason: Reason::DeadlineTooLate,
            place: passing(plan, flow, i, k),
        });
    }
    Ok(ticks)
}

// The deadline of node i's k-th firing, or NEVER where an index on the way down to the source passes the limit. One word comes
// back, since every call on the way hands it on.
fn followed(plan: &[u32; PLAN], flow: &[u32; LENGTH], i: usize, k: u32) -> u64
    requires { Dues plan.now flow.now i k }
    ensures { FollowedGives plan.now flow.now i k result }
{
    if i == 0 {
        return at_source(plan[PERIOD], k);
    }
    let j = i - 1;
    let before = index_before(flow[PRODUCE + j], flow[CONSUME + j], plan[CAPACITY + j], k);
    if LIMIT < before {
        return NEVER;
    }
    followed(plan, flow, j, before as u32)
}

// The first node on the way down from node i's index k whose index passes the limit, or 0 where none does.
fn passing(plan: &[u32; PLAN], flow: &[u32; LENGTH], i: usize, k: u32) -> u32
    requires { Dues plan.now flow.now i k }
    ensures { PassingGives plan.now flow.now i k result }
{
    if i == 0 {
        return 0;
    }
    let j = i - 1;
    let before = index_before(flow[PRODUCE + j], flow[CONSUME + j], plan[CAPACITY + j], k);
    if before <= LIMIT {
        return passing(plan, flow, j, before as u32);
    }
    j as u32
}

// The index at the node before a queue of these numbers, for index k at the node that it feeds.
fn index_before(p: u32, c: u32, capacity: u32, k: u32) -> u64
    requires { Step p c capacity k }
    ensures { result ≡ ((k - 1) * c + capacity) / p + 1 }
{
    let taken = u64::from(k - 1) * u64::from(c);
    (taken + u64::from(capacity)) / u64::from(p) + 1
}

// When the source's k-th firing is due.
fn at_source(y: u32, k: u32) -> u64
    requires { 1 ≤ k }
    ensures { result ≡ (k - 1) * y }
{
    u64::from(k - 1) * u64::from(y)
}
