// The recording tick of a state and a list, by value, and the recording run from a fresh start. Both are deadline ticks that
// are joined by losses: where a production does not fit, its loss is noted, the rest of its tick is made, and the ticks go on.
#![tactic(auto)]

ghost use Rattle.std.specs.Prelude.{◌≡◌};
ghost use Rattle.state.specs.Checks.{Planned};
ghost use Rattle.chain.specs.Said.{said};
ghost use Rattle.recordings.specs.Checks.{rec_state_check};
ghost use Rattle.recordings.specs.Answers.{rec_tick_answer, rec_run_answer};
ghost use Rattle.recorder.specs.Halted.{overflow_in, undated_in, Halts, Overflows, LostGives, OnwardGives};
ghost use Rattle.recorder.specs.Joined.{Joins, JoinedGives};
ghost use Rattle.recorder.specs.Left.{rec_left_by, rec_outcome_in, run_left_by};
ghost use Rattle.state.specs.State.{empty_run};
ghost use Rattle.losses.specs.Losses.{empty_losses};
ghost use Rattle.recordings.specs.Answered.{recorded_said};

use chain::{Chain, Reason, Refused};
use flow::{LENGTH, PRODUCE};
use losses::{Loss, Losses};
use recordings::{RecordOutcome, Recorded};
use sizing::PLAN;
use state::Run;
use steps::Halt;

// One recording tick: how it ended with the state and the list after it, or the first of 2, 4, 5, 6, 7, 17 and 9 that
// refuses it.
#[tactic(auto, using(chain::proofs::Passing::passing, crate::proofs::Answers::answering), unfolding(recordings::specs::Answers::rec_tick_answer))]
pub fn recording_tick(chain: Chain, run: Run, mut losses: Losses) -> Result<Recorded, Refused>
    ensures { recorded_said run losses result ≡ rec_tick_answer chain run losses }
{
    let mut plan = [0; PLAN];
    sizing::planned(chain, &mut plan)?;
    damage(&chain, &plan, &run, &losses)?;
    ticks::late_check(&chain, &run)?;
    let mut flow = flow::showing(&chain, &run);
    let mut done = run.done;
    let first = ticks::passes(&plan, &mut flow, &mut done, run.clock, 1);
    let ended = joined(
        &plan,
        &mut flow,
        &mut done,
        &mut losses,
        first,
        run.clock + 1,
    );
    Ok(Recorded {
        outcome: outcome(ended),
        run: left(&flow, &done, ended),
        losses,
    })
}

// A recording run of so many ticks from a fresh start: how it ended with the state and the list that it left, or the first of
// 2, 4, 5, 6, 7 and 9 that refuses it.
#[tactic(auto, using(chain::proofs::Passing::passing, crate::proofs::Answers::answering), unfolding(recordings::specs::Answers::rec_run_answer))]
pub fn recording_run(chain: Chain, ticks: u32) -> Result<Recorded, Refused>
    ensures { recorded_said empty_run empty_losses result ≡ rec_run_answer chain ticks }
{
    let mut plan = [0; PLAN];
    sizing::planned(chain, &mut plan)?;
    chain::test(Reason::RunTooLong, 0, ticks::LONGEST < ticks)?;
    let mut flow = flow::started(&chain);
    let mut done = [0; 16];
    let first = ticks::passes(&plan, &mut flow, &mut done, 0, ticks);
    let mut list = losses::NONE;
    let ended = joined(&plan, &mut flow, &mut done, &mut list, first, ticks);
    Ok(Recorded {
        outcome: outcome(ended),
        run: left(&flow, &done, ended),
        losses: list,
    })
}

// 17 of a state with its list: of the list, and then of the lowest queue whose balance with the sum of its entries is broken,
// whose capacity is passed, or whose consumer has all the work of a firing done.
#[tactic(auto, using(crate::proofs::Answers::damages))]
fn damage(chain: &Chain, plan: &[u32; PLAN], run: &Run, losses: &Losses) -> Result<(), Refused>
    requires { Planned chain.now plan.now }
    ensures { said result ≡ rec_state_check chain.now run.now losses.now }
{
    let lost = losses::tallied(chain.n, losses)?;
    state::state_check_with(chain, plan, run, &lost)
}

// How recording ticks end that go on from where deadline ticks ended: a production that did not fit is lost, which goes into
// the list, and deadline ticks follow up to clock `until`. The list is lent, so no loss copies it.
fn joined(
    plan: &[u32; PLAN],
    flow: &mut [u32; LENGTH],
    done: &mut [u32; 16],
    list: &mut Losses,
    first: Result<u32, Halt>,
    until: u32,
) -> Result<u32, Halt>
    requires { Joins plan.now flow.old done.old list.old until first }
    ensures { JoinedGives plan.now flow.old done.old list.old until first (rec_left_by flow.new done.new result list.new) }
{
    let mut ended = first;
    while let Some((tick, queue)) = overflow(ended) {
        if list.count == losses::LONGEST {
            return ended;
        }
        let next = lost(plan, flow, done, tick, queue as usize);
        if is_undated(next) {
            return next;
        }
        let tokens = flow[PRODUCE + queue as usize];
        list.entries[list.count as usize] = Loss {
            tick,
            queue,
            tokens,
        };
        list.count += 1;
        ended = onward(plan, flow, done, next, until);
    }
    ended
}

// The tick and the queue of the production that does not fit, where ticks ended with one. The check keeps nothing of a pattern
// in a pattern that does not match, and so it stands in a function, as does the next.
fn overflow(ended: Result<u32, Halt>) -> Option<(u32, u32)>
    ensures { result ≡ overflow_in ended }
{
    match ended {
        Err(Halt::Overflowed { tick, queue }) => Some((tick, queue)),
        _ => None,
    }
}

// Whether ticks ended with 13.
fn is_undated(ended: Result<u32, Halt>) -> bool
    ensures { result ≡ undated_in ended }
{
    match ended {
        Err(Halt::NoDeadline { .. }) => true,
        _ => false,
    }
}

// What is left of a tick whose production does not fit queue `at`, once that is lost: the clock from which to go on. At the
// source 13 is tested before the loss is made, since 13 takes it back, and then the tick of work follows; at a finish the
// firing takes effect without it.
#[tactic(auto, using(crate::specs::Lost::taking))]
fn lost(
    plan: &[u32; PLAN],
    flow: &mut [u32; LENGTH],
    done: &mut [u32; 16],
    tick: u32,
    at: usize,
) -> Result<u32, Halt>
    requires { Overflows plan.now flow.old done.old tick at }
    ensures { LostGives plan.now flow.old done.old tick at flow.new done.new result }
{
    if 0 < at {
        flow::loss(flow, at);
        done[at - 1] = 0;
        return Ok(tick);
    }
    let due = steps::dues(plan, flow, false);
    if let Some(node) = steps::lacking(flow, &due) {
        return Err(Halt::NoDeadline { tick, node });
    }
    let node = steps::chosen(flow, &due);
    flow::loss(flow, 0);
    steps::completed(plan, flow, done, tick + 1, node)?;
    Ok(tick + 1)
}

// The ticks that follow a clean one up to clock `until`; any other outcome stands. After the last tick no deadline is asked
// for, since the node that fired may have no next firing.
#[tactic(auto, using(crate::specs::Lost::going_on))]
fn onward(
    plan: &[u32; PLAN],
    flow: &mut [u32; LENGTH],
    done: &mut [u32; 16],
    ended: Result<u32, Halt>,
    until: u32,
) -> Result<u32, Halt>
    requires { Halts plan.now flow.old done.old until ended }
    ensures { OnwardGives plan.now flow.old done.old until ended flow.new done.new result }
{
    let clock = ended?;
    if until <= clock {
        return Ok(clock);
    }
    ticks::passes(plan, flow, done, clock, until - clock)
}

// How recording ticks ended: a production that does not fit ends them where the list is full.
fn outcome(ended: Result<u32, Halt>) -> RecordOutcome
    ensures { result ≡ rec_outcome_in ended }
{
    match ended {
        Ok(_) => RecordOutcome::Clean,
        Err(Halt::Overflowed { tick, queue }) => RecordOutcome::ListFull { tick, queue },
        Err(Halt::NoDeadline { tick, node }) => RecordOutcome::NoDeadline { tick, node },
    }
}

// The state that the flow shows where recording ticks ended so, with the clock and the work done.
fn left(flow: &[u32; LENGTH], done: &[u32; 16], ended: Result<u32, Halt>) -> Run
    ensures { result ≡ run_left_by flow.now done.now ended }
{
    let mut run = flow::shown(flow);
    run.clock = match ended {
        Ok(clock) => clock,
        Err(halt) => halt.tick(),
    };
    let work = *done;
    run.done = work;
    run
}
