// The chain file's reader: checks 1 to 5 in order, on the caller's own bytes. Three readers take each word once, from its
// place in the file into its slot of the record: one the header, one the queue table, one the node table.
ghost use Rattle.std.specs.Prelude.{◌≡◌, ◌≤◌};
ghost use Rattle.words.specs.Put.{Room};
ghost use Rattle.chain.specs.Record.{empty_chain, answered};
ghost use Rattle.chain.specs.Said.{said, chain_said};
ghost use Rattle.chainfile.specs.File.{header_of, wrong_length, bad_table, overlap, offset_check, header_refusal, rows_refusal, chain_of, read_answer};
ghost use Rattle.chainfile.specs.Accepted.{Placed};

use chain::{Chain, Reason, Refused};
use words::ChainReader;

// The header's five words, in the order of the file.
#[derive(Clone, Copy)]
struct Header {
    n: u32,
    period: u32,
    queues: u32,
    nodes: u32,
    total: u32,
}

// Where a table stands in the file: its first byte, and the byte behind its last.
#[derive(Clone, Copy)]
struct Table {
    at: usize,
    end: usize,
}

// The chain of a file, or the refusal of the first of 1 to 5 that speaks.
#[tactic(auto, using(crate::proofs::Reading::answers, crate::proofs::AcceptedLaws::placed))]
pub fn read(file: &[u8]) -> Result<Chain, Refused>
    ensures { chain_said result ≡ read_answer file.now }
{
    // No header can be taken from fewer bytes than it has.
    chain::test(Reason::FileLength, 0, file.len() < 20)?;
    let header = header_of(file);
    header_check(file, header)?;
    load(file, header)
}

// The header: one reader takes its words, each from behind the one before.
fn header_of(file: &[u8]) -> Header
    requires { Room file.now 0 20 }
    ensures { result ≡ header_of file.now }
{
    let mut reader = ChainReader::new(file, 0);
    Header {
        n: reader.take(),
        period: reader.take(),
        queues: reader.take(),
        nodes: reader.take(),
        total: reader.take(),
    }
}

// 1, 2 and 3 of a file that has room for a header: what is wrong with it, before any row is looked at.
#[tactic(auto, using(chain::proofs::Passing::passing, chain::specs::Refusals::first_last), unfolding(crate::specs::File::header_refusal, crate::specs::File::offset_check))]
fn header_check(file: &[u8], header: Header) -> Result<(), Refused>
    requires { (header ≡ header_of file.now) × Room file.now 0 20 }
    ensures { said result ≡ header_refusal file.now }
{
    let length = file.len();
    chain::test(Reason::FileLength, 0, is_wrong_length(length, header.total))?;
    chain::count_check(header.n)?;
    offset_check(length, header)
}

// Whether the length, which is enough for a header, is out of range, or is not what the total word says.
fn is_wrong_length(length: usize, total: u32) -> bool
    requires { 20 ≤ length }
    ensures { result ≡ wrong_length length total }
{
    4096 < length || total as usize != length
}

// 3: the queue table, then the node table, then whether they overlap.
#[tactic(auto, using(chain::proofs::Passing::passing), unfolding(crate::specs::File::offset_check))]
fn offset_check(length: usize, header: Header) -> Result<(), Refused>
    ensures { said result ≡ offset_check length header.n header.queues header.nodes }
{
    let n = header.n as usize;
    let q = header.queues as usize;
    let w = header.nodes as usize;
    let queues = Table {
        at: q,
        end: q + 20 * n,
    };
    let nodes = Table {
        at: w,
        end: w + 4 * n,
    };
    chain::test(Reason::TablePlace, 8, queues.is_bad(length))?;
    chain::test(Reason::TablePlace, 12, nodes.is_bad(length))?;
    chain::test(Reason::TablePlace, 12, queues.overlaps(nodes))
}

impl Table {
    // Whether the table is out of step, inside the header or past the end of a file.
    fn is_bad(self, length: usize) -> bool
        ensures { result ≡ bad_table length self.at self.end }
    {
        self.at % 4 != 0 || self.at < 20 || length < self.end
    }

    // Whether two tables overlap: each begins before the other ends.
    fn overlaps(self, other: Table) -> bool
        ensures { result ≡ overlap self.at self.end other.at other.end }
    {
        self.at < other.end && other.at < self.end
    }
}

// The record of a file whose tables stand well, or what 4 and 5 refuse of it. One reader walks the queue table from its first
// word to its last, and one the node table; the index is that of a slot in both of the record's tables. Rows that are all fine
// have no fault, so a sound file pays for no check of theirs.
fn load(file: &[u8], header: Header) -> Result<Chain, Refused>
    requires { Placed file.now × (header ≡ header_of file.now) }
    ensures { chain_said result ≡ answered (rows_refusal file.now) (chain_of file.now) }
{
    let mut rows = ChainReader::new(file, header.queues as usize);
    let mut times = ChainReader::new(file, header.nodes as usize);
    let mut chain = blank(header);
    let mut fine = true;
    for i in 0..header.n as usize {
        let row = rows.take_row();
        let e = times.take();
        fine &= chain::is_fine(row, e);
        chain.queues[i] = row;
        chain.work[i] = e;
    }
    if fine {
        chain::check_period(chain.period)?;
    } else {
        chain::check_rows(&chain, header.queues, header.nodes)?;
    }
    Ok(chain)
}

// The record that the header alone says: no row is filled.
fn blank(header: Header) -> Chain
    ensures { result ≡ record { n = header.n; period = header.period; queues = empty_chain.queues; work = empty_chain.work } }
{
    Chain {
        n: header.n,
        period: header.period,
        ..chain::EMPTY
    }
}
