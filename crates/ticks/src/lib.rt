// One tick of a run state, by value, and the deadline run from a fresh start. Both make the same pass over what they lend:
// a tick once, a run for every tick that is not quiet, its chain being checked once and a node's deadline kept until the
// node fires.
#![tactic(auto)]

ghost use Rattle.std.specs.Prelude.{◌≡◌};
ghost use Rattle.chain.specs.Refusals.{or_else};
ghost use Rattle.chain.specs.Faults.{Few};
ghost use Rattle.chain.specs.Said.{said};
ghost use Rattle.state.specs.State.{empty_run};
ghost use Rattle.instants.specs.Answered.{ticked_said};
ghost use Rattle.instants.specs.Checks.{clock_check, spent_check, tick_answer, deadline_run_answer};
ghost use Rattle.ticks.specs.Left.{left_by};
ghost use Rattle.ticks.specs.Runs.{Lends, RanGives};

use chain::{Chain, Reason, Refused};
use flow::LENGTH;
use instants::{Outcome, Ticked};
use sizing::PLAN;
use state::Run;
use steps::Halt;

// The most ticks of a run, and the clock at which no tick is taken.
pub const LONGEST: u32 = 1000000;

// One tick: how it ended and the state after it, or the first of 2, 4, 5, 6, 7, 8, 17 and 9 that refuses it.
#[tactic(auto, using(chain::proofs::Passing::passing, crate::proofs::Answers::answering), unfolding(instants::specs::Checks::tick_answer))]
pub fn tick(chain: Chain, run: Run) -> Result<Ticked, Refused>
    ensures { ticked_said run result ≡ tick_answer chain run }
{
    let mut plan = [0; PLAN];
    sizing::planned_for_run(chain, &mut plan)?;
    state::state_check(&chain, &plan, &run)?;
    late_check(&chain, &run)?;
    let mut flow = flow::showing(&chain, &run);
    let mut done = run.done;
    let ended = passes(&plan, &mut flow, &mut done, run.clock, 1);
    Ok(left(&flow, done, ended))
}

// A deadline run of so many ticks from a fresh start: how it ended and the state that it left, or the first of 2, 4, 5, 6,
// 7, 8 and 9 that refuses it.
#[tactic(auto, using(chain::proofs::Passing::passing, crate::proofs::Answers::answering), unfolding(instants::specs::Checks::deadline_run_answer))]
pub fn deadline_run(chain: Chain, ticks: u32) -> Result<Ticked, Refused>
    ensures { ticked_said empty_run result ≡ deadline_run_answer chain ticks }
{
    let mut plan = [0; PLAN];
    sizing::planned_for_run(chain, &mut plan)?;
    chain::test(Reason::RunTooLong, 0, LONGEST < ticks)?;
    let mut flow = flow::started(&chain);
    let mut done = [0; 16];
    let ended = passes(&plan, &mut flow, &mut done, 0, ticks);
    Ok(left(&flow, done, ended))
}

// 9 of a tick: its clock is at the end of the longest run, or the lowest node's count that cannot grow.
#[tactic(auto, using(chain::proofs::Passing::passing), unfolding(instants::specs::Checks::spent_check))]
pub fn late_check(chain: &Chain, run: &Run) -> Result<(), Refused>
    requires { Few chain.now.n }
    ensures { said result ≡ or_else (clock_check run.now) (spent_check chain.now run.now) }
{
    chain::test(Reason::RunTooLong, 0, LONGEST <= run.clock)?;
    for i in 0..chain.n + 1 {
        chain::test(Reason::RunTooLong, i, run.counts[i as usize] == u32::MAX)?;
    }
    Ok(())
}

// So many ticks of the state that is lent, from its clock on, up to the first outcome that is not clean; where there is none,
// the clock after them comes back. A single tick looks at few deadlines. After the last no deadline is made, since the node
// that fired may have no next firing. Where no firing took effect, the choice stands, and the quiet ticks that follow are one
// step: so no range counts the ticks.
#[tactic(auto, using(crate::specs::Passes::going))]
pub fn passes(
    plan: &[u32; PLAN],
    flow: &mut [u32; LENGTH],
    done: &mut [u32; 16],
    start: u32,
    length: u32,
) -> Result<u32, Halt>
    requires { Lends plan.now flow.old done.old start length }
    ensures { RanGives plan.now flow.old done.old start length flow.new done.new result }
{
    let until = start + length;
    let mut due = steps::dues(plan, flow, 1 < length);
    let mut clock = start;
    let mut choice = None;
    while clock < until {
        let passed = steps::pass(plan, flow, &due, done, clock, choice)?;
        clock += 1;
        if passed.fired {
            if clock < until {
                due[passed.node - 1] = dates::dated(plan, flow, passed.node);
            }
            choice = None;
        } else {
            clock = steps::jumped(plan, done, clock, until, passed.node);
            choice = Some(passed.node);
        }
    }
    Ok(clock)
}

// What is left where ticks ended so: the outcome, and the state that the flow shows, with the clock and the work done.
fn left(flow: &[u32; LENGTH], done: [u32; 16], ended: Result<u32, Halt>) -> Ticked
    ensures { result ≡ left_by flow.now done ended }
{
    let mut run = flow::shown(flow);
    run.done = done;
    match ended {
        Ok(clock) => {
            run.clock = clock;
            Ticked {
                outcome: Outcome::Clean,
                run,
            }
        }
        Err(halt) => {
            run.clock = halt.tick();
            Ticked {
                outcome: halt.into(),
                run,
            }
        }
    }
}
