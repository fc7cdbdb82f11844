// The immediate run: every node fires as soon as it can, the one nearest the sink first. Fire and settle call each other
// over one lent flow; the number of queues left towards the sink falls.
#![tactic(auto)]

ghost use Rattle.std.specs.Prelude.{◌≡◌, ◌+◌, ◌*◌};
ghost use Rattle.chain.specs.Sound.{Sound};
ghost use Rattle.sizing.specs.Sizes.{start};
ghost use Rattle.sizing.specs.Checks.{run_refusal};
ghost use Rattle.events.specs.Counts.{fires};
ghost use Rattle.chain.specs.Said.{said};
ghost use Rattle.state.specs.State.{empty_run, fresh_run, run_said};
ghost use Rattle.history.specs.History.{after};
ghost use Rattle.schedule.specs.Schedule.{schedule};
ghost use Rattle.immediate.specs.Checks.{length_check, immediate_answer};
ghost use Rattle.immediate.specs.Long.{Few};
ghost use Rattle.immediate.specs.Steps.{Bounds};
ghost use Rattle.immediate.specs.Lent.{Fire, FireGives, Settle, SettleGives};

use chain::{Chain, Queue, Reason, Refused};
use flow::{HELD, LENGTH, SIZE, THRESHOLD};
use state::Run;

// The largest count of an immediate run.
const MOST: u64 = 1000000;

// The state after k source firings from a fresh start, each settled before the next, or the first of 2, 4, 5, 6, 7, 8 and 9
// that refuses the run.
pub fn immediate(chain: Chain, k: u32) -> Result<Run, Refused>
    ensures { run_said empty_run result ≡ immediate_answer chain k }
{
    check_chain(&chain)?;
    check_length(&chain, k)?;
    Ok(driven(&chain, k))
}

// k source firings from a fresh start, each settled before the next.
fn driven(chain: &Chain, k: u32) -> Run
    requires { Bounds k chain.now }
    ensures { result ≡ after chain.now (fresh_run chain.now) (schedule chain.now k) }
{
    let mut flow = flow::started(chain);
    for _ in 0..k {
        fire(&mut flow, 0);
    }
    flow::shown(&flow)
}

// Node i fires, and the queue after it, where there is one, is settled.
#[cycle(fire_settle)]
fn fire(flow: &mut [u32; LENGTH], i: usize)
    requires { Fire flow.old i }
    ensures { FireGives flow.old i flow.new }
{
    flow::effect(flow, i);
    let n = flow[SIZE] as usize;
    if i < n {
        settle(flow, i);
    }
}

// The node after queue q fires until the queue is below threshold.
#[cycle(fire_settle)]
fn settle(flow: &mut [u32; LENGTH], q: usize)
    requires { Settle flow.old q }
    ensures { SettleGives flow.old q flow.new }
{
    while flow[THRESHOLD + q] <= flow[HELD + q] {
        fire(flow, q + 1);
    }
}

// What refuses a chain that is to be run. A call of its own, so that the analysis has left the stack when the run begins.
#[inline(never)]
fn check_chain(chain: &Chain) -> Result<(), Refused>
    ensures { said result ≡ run_refusal chain.now }
{
    match &sizing::checked_for_run(*chain) {
        Ok(_) => Ok(()),
        Err(refused) => Err(*refused),
    }
}

// 9: the lowest node whose count at the end of k source firings passes the limit.
fn check_length(chain: &Chain, k: u32) -> Result<(), Refused>
    requires { Sound chain.now }
    ensures { said result ≡ length_check chain.now k }
{
    let mut count = u64::from(k);
    for i in 0..chain.n {
        chain::test(Reason::RunTooLong, i, MOST < count)?;
        count = fed(chain.queues[i as usize], count);
    }
    chain::test(Reason::RunTooLong, chain.n, MOST < count)
}

// How often a queue's consumer has fired once its producer has fired so often and the queue is below threshold.
fn fed(q: Queue, made: u64) -> u64
    requires { Few q made }
    ensures { result ≡ fires q.threshold q.consume (start q + q.produce * made) }
{
    let put = u64::from(q.produce) * made;
    let threshold = u64::from(q.threshold);
    if put < threshold {
        return 0;
    }
    (put - threshold) / u64::from(q.consume) + 1
}
