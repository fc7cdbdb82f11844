// The run state: a fresh start, what one firing does to it, and manual firing.
#![tactic(auto)]

ghost use Rattle.std.specs.Prelude.{◌≡◌, ◌≤◌, ◌<◌, ltb, ◌+◌};
ghost use Rattle.chain.specs.Refusals.{first};
ghost use Rattle.chain.specs.Said.{said};
ghost use Rattle.chain.specs.Sound.{Sound};
ghost use Rattle.state.specs.State.{empty_run, run_said};
ghost use Rattle.state.specs.Fired.{fired};
ghost use Rattle.state.specs.Checks.{broken_at, spent, idle, cramped, state_check, state_check_with, most_lost, Planned, Accountable};
ghost use Rattle.state.specs.Fire.{fresh_answer, node_checks, fire_answer, Firing};

use chain::{Chain, Reason, Refused};
use sizing::{CAPACITY, PLAN};

// The state of a run, as C has it: the clock, how often each node has fired (the source first), what each queue holds,
// and for each queue the ticks of work done by the node that it feeds.
#[repr(C)]
#[derive(Clone, Copy)]
pub struct Run {
    pub clock: u32,
    pub counts: [u32; 17],
    pub held: [u32; 16],
    pub done: [u32; 16],
}

// A run state, with the refusal that the call ended with, if any, as C has it.
#[repr(C)]
#[derive(Clone, Copy)]
pub struct RunAnswer {
    pub number: u32,
    pub place: u32,
    pub run: Run,
}

// Nothing has fired and every queue is empty.
pub const EMPTY: Run = Run {
    clock: 0,
    counts: [0; 17],
    held: [0; 16],
    done: [0; 16],
};

// A fresh start of a chain, or the first of 2, 4, 5, 6 and 7 that refuses it.
#[tactic(auto, using(crate::proofs::FireLaws::fresh_parts))]
pub fn fresh(chain: Chain) -> Result<Run, Refused>
    ensures { run_said empty_run result ≡ fresh_answer chain }
{
    sizing::analyse(chain)?;
    Ok(EMPTY)
}

// A finished firing of node i.
fn effect(chain: &Chain, run: Run, i: usize) -> Run
    requires { Firing chain.now run i }
    ensures { result ≡ fired chain.now run i }
{
    let mut s = run;
    s.counts[i] += 1;
    if i < chain.n as usize {
        s.held[i] += chain.queues[i].produce;
    }
    if 0 < i {
        let j = i - 1;
        s.held[j] -= chain.queues[j].consume;
    }
    s
}

impl Run {
    // One manual firing of a node: the state after it, or the first of 2, 4, 5, 6, 7, 17, 9, 11 and 12 that refuses it.
    #[tactic(auto, using(chain::proofs::Passing::passing, crate::proofs::FireLaws::firing), unfolding(crate::specs::Fire::fire_answer))]
    pub fn fire(self, chain: Chain, node: u32) -> Result<Run, Refused>
        ensures { run_said self result ≡ fire_answer chain self node }
    {
        let mut plan = [0; PLAN];
        sizing::planned(chain, &mut plan)?;
        state_check(&chain, &plan, &self)?;
        node_check(&chain, &plan, &self, node)?;
        Ok(effect(&chain, self, node as usize))
    }
}

impl RunAnswer {
    // What C is answered: the state after the call, or the refusal with the state that is given back then.
    pub fn new(outcome: Result<Run, Refused>, given: Run) -> RunAnswer
        ensures { result ≡ run_said given outcome }
    {
        match outcome {
            Ok(run) => RunAnswer {
                number: 0,
                place: 0,
                run,
            },
            Err(refused) => RunAnswer {
                number: refused.number(),
                place: refused.place,
                run: given,
            },
        }
    }
}

// 17: the lowest queue of which the state breaks the balance, passes the capacity, or has all the work of a firing done.
#[tactic(auto, using(chain::proofs::Passing::passing, crate::proofs::ChecksLaws::unlost), unfolding(crate::specs::Checks::state_check))]
pub fn state_check(chain: &Chain, plan: &[u32; PLAN], run: &Run) -> Result<(), Refused>
    requires { Planned chain.now plan.now }
    ensures { said result ≡ state_check chain.now run.now }
{
    for i in 0..chain.n as usize {
        let broken = is_broken(chain, plan, run, 0, i);
        chain::test(Reason::BrokenState, i as u32, broken)?;
    }
    Ok(())
}

// 17 where the balance counts the tokens that each queue lost.
#[tactic(auto, using(chain::proofs::Passing::passing), unfolding(crate::specs::Checks::state_check_with, crate::specs::Checks::broken_with))]
pub fn state_check_with(
    chain: &Chain,
    plan: &[u32; PLAN],
    run: &Run,
    lost: &[u64; 16],
) -> Result<(), Refused>
    requires { Accountable chain.now plan.now lost.now }
    ensures { said result ≡ state_check_with chain.now run.now lost.now }
{
    for i in 0..chain.n as usize {
        let broken = is_broken(chain, plan, run, lost[i], i);
        chain::test(Reason::BrokenState, i as u32, broken)?;
    }
    Ok(())
}

// Whether one of 17's reasons holds of queue i, which lost so many tokens. Inlined, so that where none are lost none are added.
#[inline(always)]
fn is_broken(chain: &Chain, plan: &[u32; PLAN], run: &Run, lost: u64, i: usize) -> bool
    requires queue { i < chain.now.n }
    requires planned { Planned chain.now plan.now }
    requires few { lost ≤ most_lost }
    ensures { result ≡ broken_at chain.now run.now lost i }
{
    let q = chain.queues[i];
    let held = run.held[i];
    let supplied = u64::from(q.produce) * u64::from(run.counts[i]);
    let taken = u64::from(q.consume) * u64::from(run.counts[i + 1]);
    let accounted = u64::from(held) + taken + lost;
    (supplied != accounted) | (plan[CAPACITY + i] < held) | (chain.work[i] <= run.done[i])
}

// 9, 11 and 12 of a firing.
#[tactic(auto, using(chain::proofs::Passing::passing))]
fn node_check(chain: &Chain, plan: &[u32; PLAN], run: &Run, node: u32) -> Result<(), Refused>
    requires { Planned chain.now plan.now }
    ensures { said result ≡ first (node_checks chain.now run.now node) }
{
    chain::test(Reason::RunTooLong, node, is_spent(chain, run, node))?;
    chain::test(Reason::NodeNotReady, node, is_idle(chain, run, node))?;
    chain::test(Reason::QueueFull, node, is_cramped(chain, plan, run, node))
}

// Whether there is such a node and its count can't grow.
fn is_spent(chain: &Chain, run: &Run, node: u32) -> bool
    requires { Sound chain.now }
    ensures { result ≡ spent chain.now run.now node }
{
    node <= chain.n && run.counts[node as usize] == u32::MAX
}

// Whether there is no such node or it is not over threshold.
fn is_idle(chain: &Chain, run: &Run, node: u32) -> bool
    requires { Sound chain.now }
    ensures { result ≡ idle chain.now run.now node }
{
    if chain.n < node {
        return true;
    }
    if node == 0 {
        return false;
    }
    let j = node as usize - 1;
    run.held[j] < chain.queues[j].threshold
}

// Whether the node has an output queue, and its firing would pass that queue's capacity.
#[tactic(auto, using(crate::specs::Checks::planned_capacity), unfolding(crate::specs::Checks::cramped))]
fn is_cramped(chain: &Chain, plan: &[u32; PLAN], run: &Run, node: u32) -> bool
    requires { Planned chain.now plan.now }
    ensures { result ≡ cramped chain.now run.now node }
{
    if chain.n <= node {
        return false;
    }
    let i = node as usize;
    passes(plan[CAPACITY + i], run.held[i], chain.queues[i].produce)
}

// Whether a queue that holds so much passes its capacity with so much more.
fn passes(capacity: u32, held: u32, more: u32) -> bool
    ensures { result ≡ ltb capacity (held + more) }
{
    u64::from(capacity) < u64::from(held) + u64::from(more)
}
