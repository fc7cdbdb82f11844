// The report: the text of a chain file's analysis, and the line of a refusal, written into the caller's own bytes.
#![tactic(auto)]

ghost use Rattle.std.specs.Prelude.{length};
ghost use Rattle.chain.specs.Faults.{Few};
ghost use Rattle.chainfile.specs.Packed.{room_check, length_said, Output};
ghost use Rattle.reporttext.specs.Text.{text_of};
ghost use Rattle.reporttext.specs.Refused.{refusal_text};
ghost use Rattle.reporttext.specs.Short.{longest_report, AtMost};
ghost use Rattle.report.specs.Checks.{report_text, report_refusal};

use chain::{Reason, Refused};
pub use reporttext::headed;
use sizing::Analysis;

// Writes the report of a chain file to the front of the lent bytes, and answers its length; or refuses and writes nothing.
pub fn report(file: &[u8], out: &mut [u8]) -> Result<usize, Refused>
    ensures { Output (report_refusal file.now (length out.old)) (report_text file.now) out.old out.new (length_said result) }
{
    let chain = chainfile::read(file)?;
    let analysis = sizing::sized(&chain)?;
    write_text(&analysis, out)
}

// Writes the line of a refusal to the front of the lent bytes, and answers its length; or 10, and writes nothing. C hands in
// the number, so it may be no reason's.
pub fn refusal_line(number: u32, place: u32, out: &mut [u8]) -> Result<usize, Refused>
    ensures { Output (room_check (length (refusal_text number place)) (length out.old)) (refusal_text number place) out.old out.new (length_said result) }
{
    let mut line = [0u8; reporttext::LONGEST_REFUSAL];
    let end = reporttext::put_refusal(&mut line, number, place);
    copy_text(&line[..end], out)
}

// Writes the report of an analysis, or 10 where there is no room for it. Where there is room for the longest report it
// goes straight into the lent bytes; else its length has to be known before the first byte may be written. A call of its own,
// so that its memory is not taken while the file is read.
#[inline(never)]
fn write_text(analysis: &Analysis, out: &mut [u8]) -> Result<usize, Refused>
    requires { Few analysis.now.n }
    ensures { Output (room_check (length (text_of analysis.now)) (length out.old)) (text_of analysis.now) out.old out.new (length_said result) }
{
    if reporttext::LONGEST_REPORT <= out.len() {
        return Ok(reporttext::put_text(out, analysis));
    }
    let mut text = [0u8; reporttext::LONGEST_REPORT];
    let end = reporttext::put_text(&mut text, analysis);
    copy_text(&text[..end], out)
}

// Copies a text to the front of the lent bytes, or 10 where there is no room for it.
fn copy_text(text: &[u8], out: &mut [u8]) -> Result<usize, Refused>
    requires { AtMost longest_report text.now }
    ensures { Output (room_check (length text.now) (length out.old)) text.now out.old out.new (length_said result) }
{
    let need = text.len();
    chain::test(Reason::NoRoom, need as u32, out.len() < need)?;
    out[..need].copy_from_slice(text);
    Ok(need)
}
