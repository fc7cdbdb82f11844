// The report's text: its lines, written one behind the other where there is room for the longest report; the line of a
// refusal; and the comparison with the first line. `Analysis` is C's record, so that it has at most 16 queues stands in the
// contracts.
#![tactic(auto)]

ghost use Rattle.std.specs.Prelude.{◌≡◌, ◌+◌, ◌*◌, ◌≤◌};
ghost use Rattle.words.specs.Put.{Room, Puts};
ghost use Rattle.words.specs.Writer.{Free, Wrote};
ghost use Rattle.reporttext.specs.Text.{columns, column_count, numbers, line, lines, text_of};
ghost use Rattle.reporttext.specs.Heading.{headed};
ghost use Rattle.reporttext.specs.Refused.{longest_refusal, refusal_text};
ghost use Rattle.reporttext.specs.Short.{longest_column, longest_line, longest_report, LinesFit};

use sizing::{Analysis, QueueSize};
use words::Writer;

// Bytes enough for every report: the first line, a line for each of 16 queues, and the last line.
pub const LONGEST_REPORT: usize = HEADING_LENGTH + 16 * LONGEST_LINE + LONGEST_BUSY_LINE;

// Bytes enough for the line of every refusal: the word with its comma, and two numbers.
pub const LONGEST_REFUSAL: usize = 8 + 2 * LONGEST_COLUMN;

// The length in bytes of a report's first line.
const HEADING_LENGTH: usize = 37;

// The first line of every report.
const HEADING: [u8; HEADING_LENGTH] = *b"queue,x,y,minimum,by,capacity,margin\n";

// How many numbers of a queue's line stand before its margin.
const COLUMNS: usize = 6;

// Bytes enough for a number of 32 bits and the byte behind it.
const LONGEST_COLUMN: usize = 11;

// Bytes enough for every queue's line: its numbers, the margin with its sign, and the line feed.
const LONGEST_LINE: usize = COLUMNS * LONGEST_COLUMN + 12;

// Bytes enough for every last line: the word with its comma, and two numbers.
const LONGEST_BUSY_LINE: usize = 5 + 2 * LONGEST_COLUMN;

// Whether a text begins with a report's first line.
pub fn headed(text: &[u8]) -> bool
    ensures { result ≡ headed text.now }
{
    text.starts_with(&HEADING)
}

// Writes the whole report of an analysis to the front of `out`, and answers its length.
pub fn put_text(out: &mut [u8], analysis: &Analysis) -> usize
    requires { LinesFit analysis.now.n out.old 0 longest_report }
    ensures { Puts out.old 0 (text_of analysis.now) out.new result × (result ≤ longest_report) }
{
    let mut writer = Writer::new(out);
    writer.bytes(&HEADING);
    put_lines(&mut writer, analysis);
    writer.bytes(b"busy,");
    decimal::put_column(&mut writer, analysis.busy, b',');
    decimal::put_column(&mut writer, analysis.cycle, b'\n');
    writer.at
}

// Writes a line for each queue.
fn put_lines(out: &mut Writer, analysis: &Analysis)
    requires { LinesFit analysis.now.n out.old.out.now out.old.at (longest_line * analysis.now.n) }
    ensures { Wrote out.old (lines analysis.now analysis.now.n) out.new × (out.new.at ≤ out.old.at + longest_line * analysis.now.n) }
{
    let n = analysis.n as usize;
    for (i, q) in analysis.queues[..n].iter().enumerate() {
        put_line(out, i as u32, q);
    }
}

// Writes queue i's line.
fn put_line(out: &mut Writer, i: u32, q: &QueueSize)
    requires { Free out.old longest_line }
    ensures { Wrote out.old (line i q.now) out.new × (out.new.at ≤ out.old.at + longest_line) }
{
    put_numbers(out, i, q);
    decimal::put_integer(out, q.margin);
    out.byte(b'\n');
}

// Writes the numbers of queue i's line before its margin, a comma behind each.
fn put_numbers(out: &mut Writer, i: u32, q: &QueueSize)
    requires { Free out.old (longest_column * column_count) }
    ensures { Wrote out.old (numbers (columns i q.now)) out.new × (out.new.at ≤ out.old.at + longest_column * column_count) }
{
    let columns: [u32; COLUMNS] = [i, q.x, q.y, q.minimum, q.by, q.capacity];
    for n in columns {
        decimal::put_column(out, n, b',');
    }
}

// Writes the line of a refusal to the front of `out`, and answers its length. C hands in the number, so it may be no
// reason's.
pub fn put_refusal(out: &mut [u8], number: u32, place: u32) -> usize
    requires { Room out.old 0 longest_refusal }
    ensures { Puts out.old 0 (refusal_text number place) out.new result × (result ≤ longest_refusal) }
{
    let mut writer = Writer::new(out);
    writer.bytes(b"refused,");
    decimal::put_column(&mut writer, number, b',');
    decimal::put_column(&mut writer, place, b'\n');
    writer.at
}
