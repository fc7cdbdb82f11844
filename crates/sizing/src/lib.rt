// The analysis of a chain: the rate of each node, the load, and for each queue its minimum, naming count, capacity and
// margin. One walk over the queues makes it all. Calls that need no more of it than the capacities walk into a lent plan:
// every tick, deadline run and deadline question starts with `planned_for_run`, and calls that 8 does not refuse start with
// `planned`.
#![tactic(auto)]

ghost use Rattle.std.specs.Prelude.{◌≡◌, ◌+◌, IfErr, IfOk, OnOk, ltb};
ghost use Rattle.chain.specs.Refusals.{first, test};
ghost use Rattle.chain.specs.Said.{refusal, said};
ghost use Rattle.chain.specs.Sound.{Sound, SoundRow};
ghost use Rattle.chain.specs.Faults.{Few};
ghost use Rattle.sizing.specs.Sizes.{size_by, size_of, sized, analysis_said, row_by, Parted};
ghost use Rattle.sizing.specs.Checks.{too_large, size_checks, analyse_answer, run_answer, short_in};
ghost use Rattle.sizing.specs.Walk.{Walked, Walks};
ghost use Rattle.sizing.specs.Plan.{Draws, DrawnGives, Blank, SizedPlans, RunPlans};

use chain::{Chain, Queue, Reason, Refused};
use onequeue::Row;
use rates::Rate;

// A queue as the analysis has it: its consumer fires x times in y ticks; `by` is the naming count.
#[repr(C)]
#[derive(Clone, Copy)]
pub struct QueueSize {
    pub x: u32,
    pub y: u32,
    pub minimum: u32,
    pub by: u32,
    pub capacity: u32,
    pub margin: i32,
}

// The analysis of a chain of n queues; the slots past n are zero.
#[repr(C)]
#[derive(Clone, Copy)]
pub struct Analysis {
    pub n: u32,
    pub queues: [QueueSize; 16],
    pub busy: u32,
    pub cycle: u32,
}

// An analysis, or the refusal that stands in its place, as C has it.
#[repr(C)]
#[derive(Clone, Copy)]
pub struct AnalysisAnswer {
    pub number: u32,
    pub place: u32,
    pub analysis: Analysis,
}

// A plan is what deadlines and work are made from, in one array of words that code lends from call to call; no struct, since
// `Plans`, `capacity_in` and `work_in` of specs/Plan.antt speak of its words. How many words it has, and where they lie: each
// queue's capacity in force, the execution time of the node that the queue feeds, and the source's period.
pub const PLAN: usize = 33;

pub const CAPACITY: usize = 0;

pub const WORK: usize = 16;

pub const PERIOD: usize = 32;

// A walk over the queues: the rate of the node that it has come to, x firings in y ticks, and the busy ticks per y so far.
#[derive(Clone, Copy)]
struct Walk {
    x: u32,
    y: u32,
    busy: u64,
}

// The slot of no queue.
const NO_SIZE: QueueSize = QueueSize {
    x: 0,
    y: 0,
    minimum: 0,
    by: 0,
    capacity: 0,
    margin: 0,
};

// The analysis of a refused call.
const NOTHING: Analysis = Analysis {
    n: 0,
    queues: [NO_SIZE; 16],
    busy: 0,
    cycle: 0,
};

// The largest x and the largest y of a rate.
const LIMIT: u64 = 4294967295;

impl From<Result<Analysis, Refused>> for AnalysisAnswer {
    ghost from_gives = { λ r a. a ≡ analysis_said r };

    fn from(outcome: Result<Analysis, Refused>) -> AnalysisAnswer {
        match outcome {
            Ok(analysis) => AnalysisAnswer {
                number: 0,
                place: 0,
                analysis,
            },
            Err(refused) => AnalysisAnswer {
                number: refused.number(),
                place: refused.place,
                analysis: NOTHING,
            },
        }
    }
}

// The analysis of a chain, or the first of 2, 4, 5, 6 and 7 that refuses it. Inlined, so that an analysis is not handed on once more.
#[inline(always)]
#[tactic(auto, using(crate::proofs::Answers::answering))]
pub fn analyse(chain: Chain) -> Result<Analysis, Refused>
    ensures { analysis_said result ≡ analyse_answer chain }
{
    chain::check_chain(&chain)?;
    sized(&chain)
}

// The analysis of a chain that is to be run, or the first of 2, 4, 5, 6, 7 and 8 that refuses it. 8 looks at the analysis where it
// lies, and `analyse` is not called: taking it out or calling that would copy it once more.
#[tactic(auto, using(crate::proofs::Answers::answering))]
pub fn checked_for_run(chain: Chain) -> Result<Analysis, Refused>
    ensures { analysis_said result ≡ run_answer chain }
{
    chain::check_chain(&chain)?;
    let outcome = sized(&chain);
    if let Ok(analysis) = &outcome {
        check_capacities(analysis)?;
    }
    outcome
}

// The plan of a chain, drawn into the lent words, or the first of 2, 4, 5, 6 and 7 that refuses it.
#[tactic(auto, using(crate::proofs::Answers::passed, crate::proofs::ChecksLaws::parts, chain::proofs::Passing::passing))]
pub fn planned(chain: Chain, plan: &mut [u32; PLAN]) -> Result<(), Refused>
    requires { Blank plan.old }
    ensures { SizedPlans chain plan.new result }
{
    chain::check_chain(&chain)?;
    let _short = drawn(&chain, plan)?;
    Ok(())
}

// The plan of a chain that is to be run, drawn into the lent words, or the first of 2, 4, 5, 6, 7 and 8 that refuses it.
#[tactic(auto, using(crate::proofs::Answers::passed, crate::proofs::ChecksLaws::parts, chain::proofs::Passing::passing))]
pub fn planned_for_run(chain: Chain, plan: &mut [u32; PLAN]) -> Result<(), Refused>
    requires { Blank plan.old }
    ensures { RunPlans chain plan.new result }
{
    chain::check_chain(&chain)?;
    drawn(&chain, plan)?
}

// The plan of a chain that 2, 4 and 5 have passed, drawn into the lent words, or the first of 6 and 7 that refuses it; and then
// what 8 says of it, which runs and deadlines alone ask.
#[tactic(auto, using(crate::proofs::Walking::walk_says))]
pub fn drawn(chain: &Chain, plan: &mut [u32; PLAN]) -> Result<Result<(), Refused>, Refused>
    requires { Draws chain.now plan.old }
    ensures { DrawnGives chain.now plan.new result }
{
    let mut short = Ok(());
    let mut walk = Walk::start(chain);
    plan[PERIOD] = chain.period;
    for i in 0..chain.n as usize {
        let size = walk.advance(chain, i)?;
        short = short.and(check_capacity(i as u32, size));
        plan[CAPACITY + i] = size.capacity;
        plan[WORK + i] = chain.work[i];
    }
    walk.load()?;
    Ok(short)
}

// The analysis of a chain that 2, 4 and 5 have passed, or the first of 6 and 7 that refuses it.
#[tactic(auto, using(crate::proofs::SizesLaws::analysis_refused, crate::proofs::Walking::walk_says))]
pub fn sized(chain: &Chain) -> Result<Analysis, Refused>
    requires { Sound chain.now }
    ensures { analysis_said result ≡ sized (first (size_checks chain.now)) chain.now }
{
    let mut queues = [NO_SIZE; 16];
    let mut walk = Walk::start(chain);
    for i in 0..chain.n as usize {
        queues[i] = walk.advance(chain, i)?;
    }
    let busy = walk.load()?;
    Ok(Analysis {
        n: chain.n,
        queues,
        busy,
        cycle: walk.y,
    })
}

impl Walk {
    // The walk before the first queue: the source's rate, and no load.
    fn start(chain: &Chain) -> Walk
        ensures { Walked chain.now 0 result }
    {
        Walk {
            x: 1,
            y: chain.period,
            busy: 0,
        }
    }

    // Goes on to the node that queue i feeds: the queue's line, or 6 of the node. Where 6 has passed, both casts are proved to
    // lose nothing. Inlined, so that a plan, which has no naming count, divides for none.
    #[inline(always)]
    #[tactic(auto, using(crate::proofs::Walking::walking))]
    fn advance(&mut self, chain: &Chain, i: usize) -> Result<QueueSize, Refused>
        requires { Walks chain.now i self.old }
        ensures line { IfOk result (λ q. q ≡ size_of chain.now i) }
        ensures walked { OnOk result (Walked chain.now (i + 1) self.new) }
        ensures refused { IfErr result (λ e. refusal e ≡ first (size_checks chain.now)) }
    {
        let q = chain.queues[i];
        let row = parted(q);
        let rate = rates::rate_after(row, self.x, self.y);
        chain::test(Reason::RateTooLarge, (i + 1) as u32, is_too_large(rate))?;
        let x = rate.x as u32;
        let y = rate.y as u32;
        let busy = rates::busy_after(self.busy, rate.stretch, chain.work[i], x, y);
        *self = Walk { x, y, busy };
        Ok(size_of(q, row, x, y))
    }

    // The busy ticks of the walk's nodes in y ticks, or 7.
    fn load(&self) -> Result<u32, Refused>
        ensures says { said result ≡ test 7 0 (ltb self.now.y self.now.busy) }
        ensures busy { IfOk result (λ b. b ≡ self.now.busy) }
    {
        chain::test(Reason::Overload, 0, u64::from(self.y) < self.busy)?;
        Ok(self.busy as u32)
    }
}

// Whether a rate passes the limit, a number of the scope's that is compared by its name.
fn is_too_large(rate: Rate) -> bool
    ensures { result ≡ too_large rate.x rate.y }
{
    LIMIT < rate.x || LIMIT < rate.y
}

// 8: the lowest queue whose capacity is below its minimum.
#[tactic(auto, using(chain::proofs::Passing::passing), unfolding(crate::specs::Checks::short_in))]
fn check_capacities(analysis: &Analysis) -> Result<(), Refused>
    requires { Few analysis.now.n }
    ensures { said result ≡ short_in analysis.now }
{
    for i in 0..analysis.n {
        check_capacity(i, analysis.queues[i as usize])?;
    }
    Ok(())
}

// 8 of one queue, from its line.
fn check_capacity(i: u32, size: QueueSize) -> Result<(), Refused>
    ensures { said result ≡ test 8 i (ltb size.capacity size.minimum) }
{
    chain::test(Reason::CapacityTooSmall, i, size.capacity < size.minimum)
}

// A queue's numbers with the gcd of produce and consume, and what it leaves of consume.
#[tactic(auto, using(arith::specs::Gcd::gcd_pos_left), unfolding(crate::specs::Sizes::row_by))]
fn parted(q: Queue) -> Row
    requires { SoundRow q }
    ensures { result ≡ row_by q }
{
    let g = arith::gcd(q.produce, q.consume);
    Row {
        produce: q.produce,
        threshold: q.threshold,
        consume: q.consume,
        g,
        share: arith::quotient(q.consume, g),
    }
}

// A queue's line of the analysis, from its numbers and its consumer's rate.
fn size_of(q: Queue, row: Row, x: u32, y: u32) -> QueueSize
    requires { Parted q row }
    ensures { result ≡ size_by q x y }
{
    let least = onequeue::least(row);
    let capacity = onequeue::capacity(q.capacity, least.minimum);
    QueueSize {
        x,
        y,
        minimum: least.minimum,
        by: least.by,
        capacity,
        margin: onequeue::margin(capacity, least.minimum),
    }
}
