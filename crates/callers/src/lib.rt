// For each call that C has a function that makes it (`names` has those that Rattle has): every argument is handed on as it is, and
// the proof knows of the call its contract alone. So a call whose code and contract both fix an argument, or whose contract
// names another definition, is refused here. What these calls answer is C's record, whose number says whether they refused.
#![tactic(auto)]

pub mod names;

ghost use Rattle.std.specs.Prelude.{◌≡◌, length};
ghost use Rattle.ardenquill.specs.Files.{read_answer, packed, write_refusal, Output};
ghost use Rattle.ardenquill.specs.Chains.{factory_answer};
ghost use Rattle.ardenquill.specs.Analyses.{analyse_answer};
ghost use Rattle.ardenquill.specs.Reports.{report_text, report_refusal};
ghost use Rattle.ardenquill.specs.Runs.{fire_answer};
ghost use Rattle.ardenquill.specs.Immediate.{immediate_answer};
ghost use Rattle.ardenquill.specs.Deadlines.{deadline_answer};
ghost use Rattle.ardenquill.specs.Ticks.{tick_answer};
ghost use Rattle.ardenquill.specs.Flat.{flat};
ghost use Rattle.ardenquill.specs.RecFlat.{rec_flat};
ghost use Rattle.recordings.specs.Answers.{rec_tick_answer, rec_run_answer};
ghost use Rattle.callers.specs.Ran.{Ran};
ghost use Rattle.callers.specs.ReadBack.{ReadBack};
ghost use Rattle.callers.specs.Replayed.{Replayed};

use ardenquill::{
    AnalysisAnswer, Chain, ChainAnswer, DeadlineAnswer, LengthAnswer, Losses, OutcomeRecording,
    OutcomeRun, Run, RunAnswer,
};

// A fresh start of a chain, and then a manual firing of each node in turn; the first refusal ends it, with the state as it
// then was.
#[tactic(auto, using(crate::proofs::Steps::replay_start, crate::proofs::Steps::replay_next, crate::proofs::Steps::replay_end, crate::specs::Replayed::replayed, promises::specs::Replay::stopped))]
pub fn replay(chain: Chain, nodes: &[u32]) -> RunAnswer
    ensures { Replayed chain nodes.now result }
{
    let mut answer = ardenquill::ardenquill_fresh(chain);
    for node in nodes {
        if answer.number != 0 {
            return answer;
        }
        answer = ardenquill::ardenquill_fire(chain, answer.run, *node);
    }
    answer
}

// Writes a chain into the lent bytes and reads it from there again; or the writer's refusal, with an empty chain.
#[tactic(auto, using(crate::specs::ReadBack::back_refused, crate::specs::ReadBack::back_read))]
pub fn read_back(chain: Chain, out: &mut [u8]) -> ChainAnswer
    ensures { ReadBack chain out.old out.new result }
{
    let written = ardenquill::ardenquill_write(chain, out);
    if written.number != 0 {
        return ChainAnswer {
            number: written.number,
            place: written.place,
            chain: chain::EMPTY,
        };
    }
    let end = written.length as usize;
    ardenquill::ardenquill_read(&out[..end])
}

// A deadline run as C is answered it.
#[tactic(auto, using(crate::specs::Ran::ran_so))]
pub fn run(chain: Chain, ticks: u32) -> OutcomeRun
    ensures { Ran chain ticks result }
{
    ardenquill::ardenquill_deadline_run(chain, ticks)
}

// The chain of a file, or its refusal.
pub fn loaded(file: &[u8]) -> ChainAnswer
    ensures { result ≡ read_answer file.now }
{
    ardenquill::ardenquill_read(file)
}

// The packed file of a chain at the front of the lent bytes, or its refusal.
pub fn saved(chain: Chain, out: &mut [u8]) -> LengthAnswer
    ensures { Output (write_refusal chain (length out.old)) (packed chain) out.old out.new result }
{
    ardenquill::ardenquill_write(chain, out)
}

// The factory chain of a number, or 14.
pub fn stock(number: u32) -> ChainAnswer
    ensures { result ≡ factory_answer number }
{
    ardenquill::ardenquill_factory(number)
}

// The analysis of a chain, or its refusal.
pub fn sized(chain: Chain) -> AnalysisAnswer
    ensures { result ≡ analyse_answer chain }
{
    ardenquill::ardenquill_analyse(chain)
}

// The report of a file at the front of the lent bytes, or its refusal.
pub fn reported(file: &[u8], out: &mut [u8]) -> LengthAnswer
    ensures { Output (report_refusal file.now (length out.old)) (report_text file.now) out.old out.new result }
{
    ardenquill::ardenquill_report(file, out)
}

// The state after one manual firing of a node, or the state as it was with the refusal.
pub fn fired(chain: Chain, run: Run, node: u32) -> RunAnswer
    ensures { result ≡ fire_answer chain run node }
{
    ardenquill::ardenquill_fire(chain, run, node)
}

// The state after an immediate run of k source firings, or its refusal.
pub fn settled(chain: Chain, k: u32) -> RunAnswer
    ensures { result ≡ immediate_answer chain k }
{
    ardenquill::ardenquill_immediate(chain, k)
}

// The deadline of a node's firing of this index, or the refusal of the question.
pub fn due(chain: Chain, node: u32, index: u32) -> DeadlineAnswer
    ensures { result ≡ deadline_answer chain node index }
{
    ardenquill::ardenquill_deadline(chain, node, index)
}

// One tick of a state that is lent for it, as the chain is: how it ended, and the state that was left.
pub fn lent(chain: Chain, run: Run) -> OutcomeRun
    ensures { result ≡ flat (tick_answer chain run) }
{
    let mut state = run;
    let answer = ardenquill::ardenquill_tick(&chain, &mut state);
    OutcomeRun {
        number: answer.number,
        place: answer.place,
        kind: answer.kind,
        tick: answer.tick,
        at: answer.at,
        run: state,
    }
}

// A recording run, or its refusal.
pub fn recorded(chain: Chain, ticks: u32) -> OutcomeRecording
    ensures { result ≡ rec_flat (rec_run_answer chain ticks) }
{
    ardenquill::ardenquill_recording_run(chain, ticks)
}

// One recording tick of a state and a list that are lent for it, as the chain is: how it ended, and the state and the list that
// were left.
pub fn lent_recording(chain: Chain, run: Run, losses: Losses) -> OutcomeRecording
    ensures { result ≡ rec_flat (rec_tick_answer chain run losses) }
{
    let mut state = run;
    let mut list = losses;
    let answer = ardenquill::ardenquill_recording_tick(&chain, &mut state, &mut list);
    OutcomeRecording {
        number: answer.number,
        place: answer.place,
        kind: answer.kind,
        tick: answer.tick,
        at: answer.at,
        run: state,
        losses: list,
    }
}
