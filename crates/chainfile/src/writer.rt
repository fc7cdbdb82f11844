// The writer of the packed file: checks 2, 4, 5 and 10, then header, queue table and node table into the lent bytes. `Chain`
// is C's record and may have any n, so that it has at most 16 queues stands in the contracts.
ghost use Rattle.std.specs.Prelude.{◌+◌, ◌*◌, length};
ghost use Rattle.words.specs.Put.{Puts};
ghost use Rattle.words.specs.Words.{bytes_of};
ghost use Rattle.words.specs.Writer.{Wrote};
ghost use Rattle.chainfile.specs.Packed.{header, rows, nodes, packed, write_refusal, length_said, Output, Fits, TableFits};

use chain::{Chain, Reason, Refused};
use words::Writer;

// Writes the packed file of a chain to the front of the lent bytes, and answers its length; or refuses and writes nothing.
#[tactic(auto, using(crate::proofs::Writing::few_known, crate::proofs::Writing::room_known))]
pub fn write(chain: Chain, out: &mut [u8]) -> Result<usize, Refused>
    ensures { Output (write_refusal chain (length out.old)) (packed chain) out.old out.new (length_said result) }
{
    chain::check_chain(&chain)?;
    let need = 20 + 24 * chain.n;
    chain::test(Reason::NoRoom, need, out.len() < need as usize)?;
    Ok(put_chain(&chain, out))
}

// Writes a chain where there is room for it, and answers the place behind it.
#[tactic(auto, using(crate::proofs::Writing::tables))]
fn put_chain(chain: &Chain, out: &mut [u8]) -> usize
    requires { Fits chain.now out.old }
    ensures { Puts out.old 0 (packed chain.now) out.new result }
{
    let mut writer = Writer::new(out);
    put_header(chain.n, chain.period, &mut writer);
    put_rows(chain, &mut writer);
    put_times(chain, &mut writer);
    writer.at
}

// Writes the header of a packed file of n queues.
#[tactic(auto, unfolding(words::specs::Words::bytes_of))]
fn put_header(n: u32, period: u32, out: &mut Writer)
    requires { TableFits n out.old.out.now out.old.at 20 }
    ensures { Wrote out.old (bytes_of (header n period)) out.new }
{
    out.word(n);
    out.word(period);
    out.word(20);
    out.word(20 + 20 * n);
    out.word(20 + 24 * n);
}

// Writes the queue table.
#[tactic(auto, using(crate::proofs::Writing::tables))]
fn put_rows(chain: &Chain, out: &mut Writer)
    requires { TableFits chain.now.n out.old.out.now out.old.at (20 * chain.now.n) }
    ensures { Wrote out.old (bytes_of (rows chain.now chain.now.n)) out.new }
{
    for q in &chain.queues[..chain.n as usize] {
        out.row(*q);
    }
}

// Writes the node table.
#[tactic(auto, using(crate::proofs::Writing::tables))]
fn put_times(chain: &Chain, out: &mut Writer)
    requires { TableFits chain.now.n out.old.out.now out.old.at (4 * chain.now.n) }
    ensures { Wrote out.old (bytes_of (nodes chain.now chain.now.n)) out.new }
{
    for e in &chain.work[..chain.n as usize] {
        out.word(*e);
    }
}
