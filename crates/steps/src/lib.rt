// The steps of a tick over what a run lends: its plan, its flow, the work done and the deadline of each node's next
// firing. A tick composes them. A run makes such ticks, and jumps over those in which nothing but work goes on.
#![tactic(auto)]

ghost use Rattle.std.specs.Prelude.{◌≡◌, ◌≤◌};
ghost use Rattle.instants.specs.Quiet.{worked_in};
ghost use Rattle.steps.specs.Lent.{as_outcome, tick_of, full_in, Rooms, Sources, SourcedGives, Looks, LackingGives, ChosenGives, WorkFits, ended_at, Ends, FinishedGives};
ghost use Rattle.steps.specs.Passed.{Stand, DuesGive, BegunGives, Completes, CompletedGives, Passes, PassGives};
ghost use Rattle.steps.specs.Jumped.{Unfinished, UnfinishedGives, Quiets, QuietGives, JumpedGives};

use dates::NEVER;
use flow::{COUNTS, HELD, LENGTH, PRODUCE, SIZE, THRESHOLD};
use instants::Outcome;
use sizing::{CAPACITY, PERIOD, PLAN, WORK};

// How ticks end that are not clean: a production that does not fit its queue at a tick, or a node over threshold whose
// deadline cannot be had at a tick.
#[derive(Clone, Copy)]
pub enum Halt {
    Overflowed { tick: u32, queue: u32 },
    NoDeadline { tick: u32, node: u32 },
}

impl Halt {
    // The clock at which they end.
    pub fn tick(&self) -> u32
        ensures { result ≡ tick_of self.now }
    {
        match *self {
            Halt::Overflowed { tick, queue } => tick,
            Halt::NoDeadline { tick, node } => tick,
        }
    }
}

impl From<Halt> for Outcome {
    ghost from_gives = { λ h o. o ≡ as_outcome h };

    fn from(halt: Halt) -> Outcome {
        match halt {
            Halt::Overflowed { tick, queue } => Outcome::Overflowed { tick, queue },
            Halt::NoDeadline { tick, node } => Outcome::NoDeadline { tick, node },
        }
    }
}

// What the first half of a tick leaves: whether the source has fired, and the node that works. Here and below node 0 is none,
// as the rules number nodes: it is the source, which has no work.
#[derive(Clone, Copy)]
pub struct Start {
    pub source: bool,
    pub node: usize,
}

// What one tick leaves: whether the source has fired, the node that worked, and whether that has fired.
#[derive(Clone, Copy)]
pub struct Passed {
    pub source: bool,
    pub node: usize,
    pub fired: bool,
}

// One tick: it is begun, and completed.
#[tactic(auto, using(crate::specs::Ticked::passing))]
pub fn pass(
    plan: &[u32; PLAN],
    flow: &mut [u32; LENGTH],
    due: &[u64; 16],
    done: &mut [u32; 16],
    clock: u32,
    choice: Option<usize>,
) -> Result<Passed, Halt>
    requires { Passes plan.now flow.old due.now done.old clock choice }
    ensures { PassGives plan.now flow.old due.now done.old clock choice flow.new done.new result }
{
    let start = begun(plan, flow, due, clock, choice)?;
    let fired = completed(plan, flow, done, clock + 1, start.node)?;
    Ok(Passed {
        source: start.source,
        node: start.node,
        fired,
    })
}

// The first half of a tick: the source's step, then 13, then the choice. The choice of the tick before, where there is one,
// stands where the source has not fired; what the source put in is taken back where a deadline cannot be had.
#[tactic(auto, using(crate::specs::Begun::beginning))]
pub fn begun(
    plan: &[u32; PLAN],
    flow: &mut [u32; LENGTH],
    due: &[u64; 16],
    clock: u32,
    choice: Option<usize>,
) -> Result<Start, Halt>
    requires { Sources plan.now flow.old clock }
    ensures { BegunGives plan.now flow.old due.now clock choice flow.new result }
{
    let count = flow[COUNTS];
    let held = flow[HELD];
    let source = sourced(plan, flow, clock)?;
    if let Some(node) = choice {
        if !source {
            return Ok(Start { source, node });
        }
    }
    if let Some(node) = lacking(flow, due) {
        flow[COUNTS] = count;
        flow[HELD] = held;
        return Err(Halt::NoDeadline { tick: clock, node });
    }
    Ok(Start {
        source,
        node: chosen(flow, due),
    })
}

// The second half of a tick, up to clock `tick`: one tick of work of node i, and the effect of the firing then finished. It
// tells whether there is one.
#[tactic(auto, using(crate::specs::Completed::completing))]
pub fn completed(
    plan: &[u32; PLAN],
    flow: &mut [u32; LENGTH],
    done: &mut [u32; 16],
    tick: u32,
    i: usize,
) -> Result<bool, Halt>
    requires { Completes plan.now flow.old done.old i }
    ensures { CompletedGives plan.now flow.old done.old tick i flow.new done.new result }
{
    worked(done, i, 1);
    if !has_ended(plan, done, i) {
        return Ok(false);
    }
    if finished(plan, flow, done, i) {
        return Ok(true);
    }
    Err(Halt::Overflowed {
        tick,
        queue: i as u32,
    })
}

// The jump over the quiet ticks from the clock on, none of them at `until` or later: their work is added to that of node i, 0
// for none, and the clock after them comes back.
pub fn jumped(plan: &[u32; PLAN], done: &mut [u32; 16], clock: u32, until: u32, i: usize) -> u32
    requires { Quiets plan.now done.old clock until i }
    ensures { JumpedGives plan.now done.old clock until i done.new result }
{
    let ticks = quiet(plan, done, clock, until, i);
    worked(done, i, ticks);
    clock + ticks
}

// How many ticks from the clock on are quiet: the source does not fire in them, and node i, which works in all of them,
// does not finish its firing.
fn quiet(plan: &[u32; PLAN], done: &[u32; 16], clock: u32, until: u32, i: usize) -> u32
    requires { Quiets plan.now done.now clock until i }
    ensures { QuietGives plan.now done.now clock until i result }
{
    let ticks = unfinished(plan, done, until - clock, i);
    if ticks == 0 {
        return 0;
    }
    let rest = clock % plan[PERIOD];
    if rest == 0 {
        return 0;
    }
    ticks.min(plan[PERIOD] - rest)
}

// Of so many ticks those in which the work of node i, where there is one, goes on and its firing is not finished.
fn unfinished(plan: &[u32; PLAN], done: &[u32; 16], ticks: u32, i: usize) -> u32
    requires { Unfinished plan.now done.now i }
    ensures { UnfinishedGives plan.now done.now ticks i result }
{
    if i == 0 {
        return ticks;
    }
    let j = i - 1;
    ticks.min(plan[WORK + j] - done[j] - 1)
}

// The deadline of the next firing of every node, or of those alone that a tick may look at: the nodes over threshold, and
// the first, which the source may bring there.
pub fn dues(plan: &[u32; PLAN], flow: &[u32; LENGTH], every: bool) -> [u64; 16]
    requires { Stand plan.now flow.now }
    ensures { DuesGive plan.now flow.now every 16 result }
{
    let mut due = [0; 16];
    for j in 0..flow[SIZE] as usize {
        if every | (j == 0) | (flow[THRESHOLD + j] <= flow[HELD + j]) {
            due[j] = dates::dated(plan, flow, j + 1);
        }
    }
    due
}

// The source's step: it fires where its period divides the clock, if its production fits. It tells whether it has fired.
#[tactic(auto, using(crate::specs::Laws::source_rests, crate::specs::Laws::source_spills, crate::specs::Laws::source_fires))]
pub fn sourced(plan: &[u32; PLAN], flow: &mut [u32; LENGTH], clock: u32) -> Result<bool, Halt>
    requires { Sources plan.now flow.old clock }
    ensures { SourcedGives plan.now flow.old clock flow.new result }
{
    if clock % plan[PERIOD] != 0 {
        return Ok(false);
    }
    if is_full(plan, flow, 0) {
        return Err(Halt::Overflowed {
            tick: clock,
            queue: 0,
        });
    }
    flow::effect(flow, 0);
    Ok(true)
}

// 13: the lowest node over threshold whose deadline cannot be had, if there is one. The deadline is tested first, since
// hardly one cannot be had, and the test is then foreseen.
#[tactic(auto, using(crate::specs::Scans::looking))]
pub fn lacking(flow: &[u32; LENGTH], due: &[u64; 16]) -> Option<u32>
    requires { Looks flow.now }
    ensures { LackingGives flow.now due.now result }
{
    for j in 0..flow[SIZE] as usize {
        if due[j] == NEVER && flow[THRESHOLD + j] <= flow[HELD + j] {
            return Some(j as u32 + 1);
        }
    }
    None
}

// The node over threshold with the earliest deadline, ties to the one nearest the sink; 0 where there is none.
pub fn chosen(flow: &[u32; LENGTH], due: &[u64; 16]) -> usize
    requires { Looks flow.now }
    ensures { ChosenGives flow.now due.now result }
{
    let mut node = 0;
    let mut earliest = NEVER;
    for j in 0..flow[SIZE] as usize {
        if flow[THRESHOLD + j] <= flow[HELD + j] && due[j] <= earliest {
            node = j + 1;
            earliest = due[j];
        }
    }
    node
}

// So many ticks of work of node i, where there is one; the clock goes on in `pass` and `jumped`.
#[tactic(auto, using(crate::specs::Laws::work_node, crate::specs::Laws::work_none))]
pub fn worked(done: &mut [u32; 16], i: usize, ticks: u32)
    requires { WorkFits done.old i ticks }
    ensures { done.new ≡ worked_in done.old i ticks }
{
    if 0 < i {
        done[i - 1] += ticks;
    }
}

// Whether node i has worked its execution time.
#[tactic(auto, using(crate::specs::Laws::ended_none, crate::specs::Laws::ended_node))]
pub fn has_ended(plan: &[u32; PLAN], done: &[u32; 16], i: usize) -> bool
    requires { i ≤ 16 }
    ensures { result ≡ ended_at plan.now done.now i }
{
    if i == 0 {
        return false;
    }
    let j = i - 1;
    plan[WORK + j] <= done[j]
}

// The effect of node i's firing, which is finished; false where its production does not fit, and then nothing is changed.
// With 8 passed it always fits (`finish_never_spills`, `instants`); the rules name the case, and so it stands.
#[tactic(auto, using(crate::specs::Laws::finish_spills, crate::specs::Laws::finish_fits))]
pub fn finished(
    plan: &[u32; PLAN],
    flow: &mut [u32; LENGTH],
    done: &mut [u32; 16],
    i: usize,
) -> bool
    requires { Ends plan.now flow.old done.old i }
    ensures { FinishedGives plan.now flow.old done.old i flow.new done.new result }
{
    if is_full(plan, flow, i) {
        return false;
    }
    done[i - 1] = 0;
    flow::effect(flow, i);
    true
}

// Whether the queue after node i, where there is one, has no room for its production.
fn is_full(plan: &[u32; PLAN], flow: &[u32; LENGTH], i: usize) -> bool
    requires { Rooms plan.now flow.now i }
    ensures { result ≡ full_in plan.now flow.now i }
{
    let n = flow[SIZE] as usize;
    if n <= i {
        return false;
    }
    plan[CAPACITY + i] < flow[HELD + i] + flow[PRODUCE + i]
}
