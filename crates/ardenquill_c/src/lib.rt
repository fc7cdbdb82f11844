// The library's calls for C, under the names and with the parameters of include/ardenquill.h: each is the call of that name of
// ardenquill and promises the same. A static library exports its own functions only, so they stand here once more.
#![tactic(auto)]

ghost use Rattle.std.specs.Prelude.{◌≡◌, length};
ghost use Rattle.ardenquill.specs.Files.{read_answer, packed, write_refusal, Output};
ghost use Rattle.ardenquill.specs.Chains.{factory_answer};
ghost use Rattle.ardenquill.specs.Analyses.{analyse_answer};
ghost use Rattle.ardenquill.specs.Reports.{report_text, report_refusal};
ghost use Rattle.ardenquill.specs.Runs.{fresh_answer, fire_answer};
ghost use Rattle.ardenquill.specs.Immediate.{immediate_answer};
ghost use Rattle.ardenquill.specs.Deadlines.{deadline_answer};
ghost use Rattle.ardenquill.specs.Ticks.{tick_answer, deadline_run_answer};
ghost use Rattle.ardenquill.specs.Flat.{coded, flat};
ghost use Rattle.ardenquill.specs.Losses.{rec_run_answer};
ghost use Rattle.ardenquill.specs.RecFlat.{rec_flat, RecLeaves};

use ardenquill::{
    AnalysisAnswer, Chain, ChainAnswer, DeadlineAnswer, LengthAnswer, Losses, OutcomeAnswer,
    OutcomeRecording, OutcomeRun, Run, RunAnswer,
};

// The chain of a file, or the first of 1 to 5 that refuses it.
#[unsafe(no_mangle)]
pub extern "C" fn ardenquill_read(file: &[u8]) -> ChainAnswer
    ensures { result ≡ read_answer file.now }
{
    ardenquill::ardenquill_read(file)
}

// The packed file of a chain at the front of the lent bytes, or the first of 2, 4, 5 and 10 that refuses it.
#[unsafe(no_mangle)]
pub extern "C" fn ardenquill_write(chain: Chain, out: &mut [u8]) -> LengthAnswer
    ensures { Output (write_refusal chain (length out.old)) (packed chain) out.old out.new result }
{
    ardenquill::ardenquill_write(chain, out)
}

// The factory chain of a number, or 14.
#[unsafe(no_mangle)]
pub extern "C" fn ardenquill_factory(number: u32) -> ChainAnswer
    ensures { result ≡ factory_answer number }
{
    ardenquill::ardenquill_factory(number)
}

// The analysis of a chain, or the first of 2, 4, 5, 6 and 7 that refuses it.
#[unsafe(no_mangle)]
pub extern "C" fn ardenquill_analyse(chain: Chain) -> AnalysisAnswer
    ensures { result ≡ analyse_answer chain }
{
    ardenquill::ardenquill_analyse(chain)
}

// The report of a file at the front of the lent bytes, or the first of 1 to 7 and 10 that refuses it.
#[unsafe(no_mangle)]
pub extern "C" fn ardenquill_report(file: &[u8], out: &mut [u8]) -> LengthAnswer
    ensures { Output (report_refusal file.now (length out.old)) (report_text file.now) out.old out.new result }
{
    ardenquill::ardenquill_report(file, out)
}

// A fresh start of a chain, or the first of 2, 4, 5, 6 and 7 that refuses it.
#[unsafe(no_mangle)]
pub extern "C" fn ardenquill_fresh(chain: Chain) -> RunAnswer
    ensures { result ≡ fresh_answer chain }
{
    ardenquill::ardenquill_fresh(chain)
}

// One manual firing: the state after it, or the state as it was with the first of 2, 4, 5, 6, 7, 17, 9, 11 and 12 that
// refuses it.
#[unsafe(no_mangle)]
pub extern "C" fn ardenquill_fire(chain: Chain, run: Run, node: u32) -> RunAnswer
    ensures { result ≡ fire_answer chain run node }
{
    ardenquill::ardenquill_fire(chain, run, node)
}

// The state after an immediate run of k source firings from a fresh start, or the first of 2, 4, 5, 6, 7, 8 and 9 that
// refuses it.
#[unsafe(no_mangle)]
pub extern "C" fn ardenquill_immediate(chain: Chain, k: u32) -> RunAnswer
    ensures { result ≡ immediate_answer chain k }
{
    ardenquill::ardenquill_immediate(chain, k)
}

// The deadline of a node's firing of this index, or the first of 2, 4, 5, 6, 7, 8, 11 and 13 that refuses the question.
#[unsafe(no_mangle)]
pub extern "C" fn ardenquill_deadline(chain: Chain, node: u32, index: u32) -> DeadlineAnswer
    ensures { result ≡ deadline_answer chain node index }
{
    ardenquill::ardenquill_deadline(chain, node, index)
}

// One tick of the state that the controller lends: how it ended, the state being the one after it; or the first of 2, 4, 5, 6,
// 7, 8, 17 and 9 that refuses it. Only a clean tick stores, since any other leaves the state as it was.
#[unsafe(no_mangle)]
pub extern "C" fn ardenquill_tick(chain: &Chain, run: &mut Run) -> OutcomeAnswer
    ensures { (run.new ≡ (tick_answer chain.now run.old).run) × (result ≡ coded (tick_answer chain.now run.old)) }
{
    ardenquill::ardenquill_tick(chain, run)
}

// How a deadline run of so many ticks from a fresh start ended and the state that it left, or the first of 2, 4, 5, 6, 7, 8
// and 9 that refuses it.
#[unsafe(no_mangle)]
pub extern "C" fn ardenquill_deadline_run(chain: Chain, ticks: u32) -> OutcomeRun
    ensures { result ≡ flat (deadline_run_answer chain ticks) }
{
    ardenquill::ardenquill_deadline_run(chain, ticks)
}

// One recording tick of the state and the list that the controller lends: how it ended, the two being those after it; or the
// first of 2, 4, 5, 6, 7, 17 and 9 that refuses it. The state is stored only where it has moved and the list, which is long, only
// where it has grown, since any other tick leaves them as they were.
#[unsafe(no_mangle)]
pub extern "C" fn ardenquill_recording_tick(
    chain: &Chain,
    run: &mut Run,
    losses: &mut Losses,
) -> OutcomeAnswer
    ensures { RecLeaves chain.now run.old losses.old run.new losses.new result }
{
    ardenquill::ardenquill_recording_tick(chain, run, losses)
}

// How a recording run of so many ticks from a fresh start ended and the state and the list that it left, or the first of 2, 4,
// 5, 6, 7 and 9 that refuses it.
#[unsafe(no_mangle)]
pub extern "C" fn ardenquill_recording_run(chain: Chain, ticks: u32) -> OutcomeRecording
    ensures { result ≡ rec_flat (rec_run_answer chain ticks) }
{
    ardenquill::ardenquill_recording_run(chain, ticks)
}
