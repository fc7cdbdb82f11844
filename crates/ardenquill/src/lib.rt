// Ardenquill as its users see it: every public call, for Rattle under its own name and with the parameters that C has
// (include/ardenquill.h), for which `ardenquill_c` exports it.
// No call has a `requires`: each takes any bytes, record or number and answers.
#![tactic(auto)]

ghost use Rattle.std.specs.Prelude.{◌≡◌, length};
ghost use Rattle.ardenquill.specs.Files.{read_answer, packed, write_refusal, Output};
ghost use Rattle.ardenquill.specs.Chains.{code, factory_answer};
ghost use Rattle.ardenquill.specs.Analyses.{analyse_answer};
ghost use Rattle.ardenquill.specs.Reports.{report_text, report_refusal};
ghost use Rattle.ardenquill.specs.Runs.{fresh_answer, fire_answer};
ghost use Rattle.ardenquill.specs.Immediate.{immediate_answer};
ghost use Rattle.ardenquill.specs.Deadlines.{deadline_answer};
ghost use Rattle.ardenquill.specs.Ticks.{kind_of, tick_of, at_of, tick_answer, deadline_run_answer};
ghost use Rattle.ardenquill.specs.Flat.{coded, is_clean, flat};
ghost use Rattle.recordings.specs.Steps.{rec_tick_of, rec_at_of};
ghost use Rattle.recordings.specs.Answers.{rec_run_answer};
ghost use Rattle.ardenquill.specs.RecFlat.{rec_kind_of, rec_moves, rec_grows, rec_flat, RecLeaves};

pub use chain::{Chain, ChainAnswer, Queue, Reason, Refused, factory};
pub use chainfile::{LengthAnswer, read, write};
pub use dates::{DeadlineAnswer, deadline};
pub use immediate::immediate;
pub use instants::{Outcome, Ticked};
pub use losses::{Loss, Losses};
pub use recorder::{recording_run, recording_tick};
pub use recordings::{RecordOutcome, Recorded};
pub use report::{headed, refusal_line, report};
pub use reporttext::LONGEST_REPORT;
pub use sizing::{Analysis, AnalysisAnswer, QueueSize, analyse, checked_for_run};
pub use state::{Run, RunAnswer, fresh};
pub use ticks::{deadline_run, tick};

// The answer of a tick for C: the refusal, and how it ended as a code with the tick and the queue or node.
#[repr(C)]
#[derive(Clone, Copy)]
pub struct OutcomeAnswer {
    pub number: u32,
    pub place: u32,
    pub kind: u32,
    pub tick: u32,
    pub at: u32,
}

// The answer of a deadline run for C: the same, and the state that it left. C's records are flat, so the five fields stand in each
// (`outcome_run_lies` and `recording_lies` of callers/specs/Layouts.antt).
#[repr(C)]
#[derive(Clone, Copy)]
pub struct OutcomeRun {
    pub number: u32,
    pub place: u32,
    pub kind: u32,
    pub tick: u32,
    pub at: u32,
    pub run: Run,
}

// The answer of a recording run for C: the same, and the list of what was lost.
#[repr(C)]
#[derive(Clone, Copy)]
pub struct OutcomeRecording {
    pub number: u32,
    pub place: u32,
    pub kind: u32,
    pub tick: u32,
    pub at: u32,
    pub run: Run,
    pub losses: Losses,
}

// The chain of a file, or the first of 1 to 5 that refuses it.
pub fn ardenquill_read(file: &[u8]) -> ChainAnswer
    ensures { result ≡ read_answer file.now }
{
    read(file).into()
}

// The packed file of a chain at the front of the lent bytes, or the first of 2, 4, 5 and 10 that refuses it.
pub fn ardenquill_write(chain: Chain, out: &mut [u8]) -> LengthAnswer
    ensures { Output (write_refusal chain (length out.old)) (packed chain) out.old out.new result }
{
    write(chain, out).into()
}

// The factory chain of a number, or 14.
pub fn ardenquill_factory(number: u32) -> ChainAnswer
    ensures { result ≡ factory_answer number }
{
    factory(number).into()
}

// The analysis of a chain, or the first of 2, 4, 5, 6 and 7 that refuses it.
pub fn ardenquill_analyse(chain: Chain) -> AnalysisAnswer
    ensures { result ≡ analyse_answer chain }
{
    analyse(chain).into()
}

// The report of a file at the front of the lent bytes, or the first of 1 to 7 and 10 that refuses it.
pub fn ardenquill_report(file: &[u8], out: &mut [u8]) -> LengthAnswer
    ensures { Output (report_refusal file.now (length out.old)) (report_text file.now) out.old out.new result }
{
    report(file, out).into()
}

// A fresh start of a chain, or the first of 2, 4, 5, 6 and 7 that refuses it.
pub fn ardenquill_fresh(chain: Chain) -> RunAnswer
    ensures { result ≡ fresh_answer chain }
{
    RunAnswer::new(fresh(chain), state::EMPTY)
}

// One manual firing: the state after it, or the state as it was with the first of 2, 4, 5, 6, 7, 17, 9, 11 and 12 that
// refuses it.
pub fn ardenquill_fire(chain: Chain, run: Run, node: u32) -> RunAnswer
    ensures { result ≡ fire_answer chain run node }
{
    RunAnswer::new(run.fire(chain, node), run)
}

// The state after an immediate run of k source firings from a fresh start, or the first of 2, 4, 5, 6, 7, 8 and 9 that
// refuses it.
pub fn ardenquill_immediate(chain: Chain, k: u32) -> RunAnswer
    ensures { result ≡ immediate_answer chain k }
{
    RunAnswer::new(immediate(chain, k), state::EMPTY)
}

// The deadline of a node's firing of this index, or the first of 2, 4, 5, 6, 7, 8, 11 and 13 that refuses the question.
pub fn ardenquill_deadline(chain: Chain, node: u32, index: u32) -> DeadlineAnswer
    ensures { result ≡ deadline_answer chain node index }
{
    deadline(chain, node, index).into()
}

// One tick of the state that the controller lends: how it ended, the state being the one after it; or the first of 2, 4, 5, 6,
// 7, 8, 17 and 9 that refuses it. Only a clean tick stores, since any other leaves the state as it was.
pub fn ardenquill_tick(chain: &Chain, run: &mut Run) -> OutcomeAnswer
    ensures { (run.new ≡ (tick_answer chain.now run.old).run) × (result ≡ coded (tick_answer chain.now run.old)) }
{
    match &tick(*chain, *run) {
        Ok(left) => {
            let code = left.outcome.into();
            if is_clean(code) {
                *run = left.run;
            }
            code
        }
        Err(refused) => (*refused).into(),
    }
}

// How a deadline run of so many ticks from a fresh start ended and the state that it left, or the first of 2, 4, 5, 6, 7, 8
// and 9 that refuses it.
pub fn ardenquill_deadline_run(chain: Chain, ticks: u32) -> OutcomeRun
    ensures { result ≡ flat (deadline_run_answer chain ticks) }
{
    match &deadline_run(chain, ticks) {
        Ok(left) => with_run(left.outcome.into(), &left.run),
        Err(refused) => with_run((*refused).into(), &state::EMPTY),
    }
}

// One recording tick of the state and the list that the controller lends: how it ended, the two being those after it; or the
// first of 2, 4, 5, 6, 7, 17 and 9 that refuses it. The state is stored only where it has moved and the list, which is long, only
// where it has grown, since any other tick leaves them as they were.
pub fn ardenquill_recording_tick(chain: &Chain, run: &mut Run, losses: &mut Losses) -> OutcomeAnswer
    ensures { RecLeaves chain.now run.old losses.old run.new losses.new result }
{
    match &recording_tick(*chain, *run, *losses) {
        Ok(left) => {
            let code = left.outcome.into();
            if rec_moves(code) {
                *run = left.run;
            }
            if rec_grows(losses.count, left.losses.count) {
                *losses = left.losses;
            }
            code
        }
        Err(refused) => (*refused).into(),
    }
}

// How a recording run of so many ticks from a fresh start ended and the state and the list that it left, or the first of 2, 4,
// 5, 6, 7 and 9 that refuses it. Where it is exported it is inlined, and its record is written out, since each call that answers a
// list has it on the stack once more.
#[inline(always)]
pub fn ardenquill_recording_run(chain: Chain, ticks: u32) -> OutcomeRecording
    ensures { result ≡ rec_flat (rec_run_answer chain ticks) }
{
    let recorded = recording_run(chain, ticks);
    let code: OutcomeAnswer = match &recorded {
        Ok(left) => left.outcome.into(),
        Err(refused) => (*refused).into(),
    };
    let mut answer = OutcomeRecording {
        number: code.number,
        place: code.place,
        kind: code.kind,
        tick: code.tick,
        at: code.at,
        run: state::EMPTY,
        losses: losses::NONE,
    };
    if let Ok(left) = &recorded {
        answer.run = left.run;
        answer.losses = left.losses;
    }
    answer
}

// A refusal as C has it, with no outcome.
impl From<Refused> for OutcomeAnswer {
    ghost from_gives = { λ e a. a ≡ record { number = code e.reason; place = e.place; kind = 0; tick = 0; at = 0 } };

    fn from(refused: Refused) -> OutcomeAnswer {
        OutcomeAnswer {
            number: refused.number(),
            place: refused.place,
            kind: 0,
            tick: 0,
            at: 0,
        }
    }
}

// An outcome as C has it, with no refusal.
impl From<Outcome> for OutcomeAnswer {
    ghost from_gives = { λ o a. a ≡ record { number = 0; place = 0; kind = kind_of o; tick = tick_of o; at = at_of o } };

    fn from(outcome: Outcome) -> OutcomeAnswer {
        match outcome {
            Outcome::Clean => ended(0, 0, 0),
            Outcome::Overflowed { tick, queue } => ended(1, tick, queue),
            Outcome::NoDeadline { tick, node } => ended(2, tick, node),
        }
    }
}

// The same of a recording outcome.
impl From<RecordOutcome> for OutcomeAnswer {
    ghost from_gives = { λ o a. a ≡ record { number = 0; place = 0; kind = rec_kind_of o; tick = rec_tick_of o; at = rec_at_of o } };

    fn from(outcome: RecordOutcome) -> OutcomeAnswer {
        match outcome {
            RecordOutcome::Clean => ended(0, 0, 0),
            RecordOutcome::NoDeadline { tick, node } => ended(2, tick, node),
            RecordOutcome::ListFull { tick, queue } => ended(3, tick, queue),
        }
    }
}

// How a call ended that was not refused: the kind as a code, the tick, and the queue or node.
fn ended(kind: u32, tick: u32, at: u32) -> OutcomeAnswer
    ensures { result ≡ record { number = 0; place = 0; kind = kind; tick = tick; at = at } }
{
    OutcomeAnswer {
        number: 0,
        place: 0,
        kind,
        tick,
        at,
    }
}

// How a call ended, beside the state that it left.
fn with_run(code: OutcomeAnswer, run: &Run) -> OutcomeRun
    ensures { result ≡ record { number = code.number; place = code.place; kind = code.kind; tick = code.tick; at = code.at; run = run.now } }
{
    OutcomeRun {
        number: code.number,
        place: code.place,
        kind: code.kind,
        tick: code.tick,
        at: code.at,
        run: *run,
    }
}

// Whether an answer is that of a tick which was taken and ended clean. It reads the record that C has, as the definition of that
// name does (`tick_stores` of promises/specs/Demand2.antt).
fn is_clean(code: OutcomeAnswer) -> bool
    ensures { result ≡ is_clean code }
{
    code.number == 0 && code.kind == 0
}

// Whether an answer is that of a recording tick which was taken and went on from the source's step: 13, and a full list at queue
// 0, come before that.
fn rec_moves(code: OutcomeAnswer) -> bool
    ensures { result ≡ rec_moves code }
{
    code.number == 0 && (code.kind == 0 || code.kind == 3 && code.at != 0)
}

// Whether a list of so many entries before has another number of them after.
fn rec_grows(before: u32, after: u32) -> bool
    ensures { result ≡ rec_grows before after }
{
    before != after
}
