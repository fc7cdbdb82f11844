// Each call by its name for Rattle, from its contract alone, and the fields of an outcome by their names. A call for C is made over
// the one for Rattle, but nothing else says that it is: so each is asked here. What a refusal says is asked by what C is answered of
// it, which has every value that a refused call gives back.
ghost use Rattle.std.specs.Prelude.{◌≡◌, length};
ghost use Rattle.ardenquill.specs.Files.{read_answer, packed, room_check, write_refusal, length_said, Output};
ghost use Rattle.ardenquill.specs.Chains.{chain_said, factory_answer};
ghost use Rattle.ardenquill.specs.Analyses.{analysis_said, analyse_answer, run_answer};
ghost use Rattle.ardenquill.specs.Reports.{headed, longest_report, refusal_text, report_text, report_refusal};
ghost use Rattle.ardenquill.specs.Runs.{empty_run, run_said, fresh_answer, fire_answer};
ghost use Rattle.ardenquill.specs.Immediate.{immediate_answer};
ghost use Rattle.ardenquill.specs.Deadlines.{due_said, deadline_answer};
ghost use Rattle.ardenquill.specs.Ticks.{kind_of, tick_of, at_of, ticked_said, tick_answer, deadline_run_answer};
ghost use Rattle.ardenquill.specs.Losses.{empty_losses, recorded_said, rec_tick_of, rec_at_of, rec_tick_answer, rec_run_answer};
ghost use Rattle.ardenquill.specs.RecFlat.{rec_kind_of};

use ardenquill::{Analysis, Chain, Losses, Outcome, RecordOutcome, Recorded, Refused, Run, Ticked};

// The chain of a file.
pub fn read(file: &[u8]) -> Result<Chain, Refused>
    ensures { chain_said result ≡ read_answer file.now }
{
    ardenquill::read(file)
}

// The packed file of a chain.
pub fn write(chain: Chain, out: &mut [u8]) -> Result<usize, Refused>
    ensures { Output (write_refusal chain (length out.old)) (packed chain) out.old out.new (length_said result) }
{
    ardenquill::write(chain, out)
}

// A factory chain.
pub fn factory(number: u32) -> Result<Chain, Refused>
    ensures { chain_said result ≡ factory_answer number }
{
    ardenquill::factory(number)
}

// The analysis of a chain.
pub fn analyse(chain: Chain) -> Result<Analysis, Refused>
    ensures { analysis_said result ≡ analyse_answer chain }
{
    ardenquill::analyse(chain)
}

// The same of a chain that is to run.
pub fn checked_for_run(chain: Chain) -> Result<Analysis, Refused>
    ensures { analysis_said result ≡ run_answer chain }
{
    ardenquill::checked_for_run(chain)
}

// The report of a file.
pub fn report(file: &[u8], out: &mut [u8]) -> Result<usize, Refused>
    ensures { Output (report_refusal file.now (length out.old)) (report_text file.now) out.old out.new (length_said result) }
{
    ardenquill::report(file, out)
}

// Whether a text begins with the report's first line.
pub fn headed(text: &[u8]) -> bool
    ensures { result ≡ headed text.now }
{
    ardenquill::headed(text)
}

// The line of a refusal.
pub fn refusal_line(number: u32, place: u32, out: &mut [u8]) -> Result<usize, Refused>
    ensures { Output (room_check (length (refusal_text number place)) (length out.old)) (refusal_text number place) out.old out.new (length_said result) }
{
    ardenquill::refusal_line(number, place, out)
}

// A fresh start.
pub fn fresh(chain: Chain) -> Result<Run, Refused>
    ensures { run_said empty_run result ≡ fresh_answer chain }
{
    ardenquill::fresh(chain)
}

// One manual firing.
pub fn fire(chain: Chain, run: Run, node: u32) -> Result<Run, Refused>
    ensures { run_said run result ≡ fire_answer chain run node }
{
    run.fire(chain, node)
}

// An immediate run.
pub fn immediate(chain: Chain, k: u32) -> Result<Run, Refused>
    ensures { run_said empty_run result ≡ immediate_answer chain k }
{
    ardenquill::immediate(chain, k)
}

// A deadline question.
pub fn deadline(chain: Chain, node: u32, index: u32) -> Result<u64, Refused>
    ensures { due_said result ≡ deadline_answer chain node index }
{
    ardenquill::deadline(chain, node, index)
}

// One tick.
pub fn tick(chain: Chain, run: Run) -> Result<Ticked, Refused>
    ensures { ticked_said run result ≡ tick_answer chain run }
{
    ardenquill::tick(chain, run)
}

// A deadline run.
pub fn deadline_run(chain: Chain, ticks: u32) -> Result<Ticked, Refused>
    ensures { ticked_said empty_run result ≡ deadline_run_answer chain ticks }
{
    ardenquill::deadline_run(chain, ticks)
}

// One recording tick.
pub fn recording_tick(chain: Chain, run: Run, losses: Losses) -> Result<Recorded, Refused>
    ensures { recorded_said run losses result ≡ rec_tick_answer chain run losses }
{
    ardenquill::recording_tick(chain, run, losses)
}

// A recording run.
pub fn recording_run(chain: Chain, ticks: u32) -> Result<Recorded, Refused>
    ensures { recorded_said empty_run empty_losses result ≡ rec_run_answer chain ticks }
{
    ardenquill::recording_run(chain, ticks)
}

// Which of its kinds an outcome is, by their names.
pub fn kind(outcome: Outcome) -> u32
    ensures { result ≡ kind_of outcome }
{
    match outcome {
        Outcome::Clean => 0,
        Outcome::Overflowed { .. } => 1,
        Outcome::NoDeadline { .. } => 2,
    }
}

// What an outcome names its tick.
pub fn tick_named(outcome: Outcome) -> u32
    ensures { result ≡ tick_of outcome }
{
    match outcome {
        Outcome::Clean => 0,
        Outcome::Overflowed { tick, .. } => tick,
        Outcome::NoDeadline { tick, .. } => tick,
    }
}

// What it names its queue or its node.
pub fn place_named(outcome: Outcome) -> u32
    ensures { result ≡ at_of outcome }
{
    match outcome {
        Outcome::Clean => 0,
        Outcome::Overflowed { queue, .. } => queue,
        Outcome::NoDeadline { node, .. } => node,
    }
}

// Which of its kinds a recording outcome is, by their names.
pub fn recorded_kind(outcome: RecordOutcome) -> u32
    ensures { result ≡ rec_kind_of outcome }
{
    match outcome {
        RecordOutcome::Clean => 0,
        RecordOutcome::NoDeadline { .. } => 2,
        RecordOutcome::ListFull { .. } => 3,
    }
}

// What it names its tick.
pub fn recorded_tick_named(outcome: RecordOutcome) -> u32
    ensures { result ≡ rec_tick_of outcome }
{
    match outcome {
        RecordOutcome::Clean => 0,
        RecordOutcome::NoDeadline { tick, .. } => tick,
        RecordOutcome::ListFull { tick, .. } => tick,
    }
}

// What it names its node or its queue.
pub fn recorded_place_named(outcome: RecordOutcome) -> u32
    ensures { result ≡ rec_at_of outcome }
{
    match outcome {
        RecordOutcome::Clean => 0,
        RecordOutcome::NoDeadline { node, .. } => node,
        RecordOutcome::ListFull { queue, .. } => queue,
    }
}

// Bytes that are enough for every report.
pub fn longest_report() -> usize
    ensures { result ≡ longest_report }
{
    ardenquill::LONGEST_REPORT
}
