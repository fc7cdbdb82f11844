// The checks of a chain's own numbers, 2, 4 and 5, which a file and a record share: each passes, or refuses with its reason
// and place. `check_chain` is what every call that is handed a record runs first.
ghost use Rattle.std.specs.Prelude.{◌≡◌, ◌↔◌, IsTrue, [], ◌∷◌, ◌+◌, ◌*◌};
ghost use Rattle.words.specs.Table.{tab};
ghost use Rattle.chain.specs.Tests.{outside};
ghost use Rattle.chain.specs.Refusals.{test, first};
ghost use Rattle.chain.specs.Said.{code, said};
ghost use Rattle.chain.specs.Record.{row_of, work_of};
ghost use Rattle.chain.specs.Checks.{count_check, field, out_of_range, overdrawn, range_check, order_check, chain_refusal};
ghost use Rattle.chain.specs.Sound.{row_range, node_range};
ghost use Rattle.chain.specs.Faults.{fine_row, AllFine, Few, TablesAt, RowsAt, RowPlace};

use crate::{Chain, Reason, Refused};
use words::Queue;

// 2, 4 and 5 of a chain that was handed in as a record, with places as in its packed file. Rows that are all fine have no
// fault, so a sound chain pays for no check of theirs.
#[tactic(auto, using(crate::proofs::Passing::passing, crate::proofs::FaultsLaws::fine_rows), unfolding(crate::specs::Checks::chain_refusal))]
pub fn check_chain(chain: &Chain) -> Result<(), Refused>
    ensures { said result ≡ chain_refusal chain.now }
{
    count_check(chain.n)?;
    if are_fine(chain) {
        return check_period(chain.period);
    }
    check_rows(chain, 20, 20 + 20 * chain.n)
}

// 2: how many queues there are.
pub fn count_check(n: u32) -> Result<(), Refused>
    ensures { said result ≡ count_check n }
{
    test(Reason::QueueCount, 0, is_outside(n, 1, 16))
}

// 4 of the period.
pub fn check_period(period: u32) -> Result<(), Refused>
    ensures { said result ≡ out_of_range (field 4 1 1000000 period) }
{
    check_field(4, 1, 1000000, period)
}

// 4, then 5, of a chain with its tables at `q` and `w`.
#[tactic(auto, using(crate::proofs::Passing::passing, crate::proofs::FaultsLaws::rows_apart))]
pub fn check_rows(chain: &Chain, q: u32, w: u32) -> Result<(), Refused>
    requires { TablesAt chain.now.n q w }
    ensures { said result ≡ first (range_check chain.now q w ∷ order_check chain.now q ∷ []) }
{
    check_period(chain.period)?;
    check_queues(chain, q)?;
    check_nodes(chain, w)?;
    check_order(chain, q)
}

// Whether nothing is refused of a queue row and its node row: a few plain comparisons, by which a loop passes a sound row.
pub fn is_fine(row: Queue, e: u32) -> bool
    ensures { result ≡ fine_row row e }
{
    (1 <= row.produce)
        & (row.produce <= 65535)
        & (row.threshold <= 65535)
        & (1 <= row.consume)
        & (row.consume <= row.threshold)
        & (row.capacity <= 1000000)
        & (row.reserved == 0)
        & (1 <= e)
        & (e <= 1000000)
}

// What a test that fails refuses.
pub fn test(reason: Reason, place: u32, wrong: bool) -> Result<(), Refused>
    ensures { said result ≡ test (code reason) place wrong }
{
    if wrong {
        return Err(Refused { reason, place });
    }
    Ok(())
}

// Whether every row of a record is fine.
fn are_fine(chain: &Chain) -> bool
    requires { Few chain.now.n }
    ensures { IsTrue result ↔ AllFine (row_of chain.now) (work_of chain.now) chain.now.n }
{
    for i in 0..chain.n as usize {
        if !is_fine(chain.queues[i], chain.work[i]) {
            return false;
        }
    }
    true
}

// 4 of the queue rows of a chain, whose table stands at `q`.
#[tactic(auto, using(crate::proofs::Passing::passing))]
fn check_queues(chain: &Chain, q: u32) -> Result<(), Refused>
    requires { RowsAt chain.now.n 20 q }
    ensures { said result ≡ first (tab chain.now.n (λ i. row_range (row_of chain.now i) (q + 20 * i))) }
{
    for i in 0..chain.n {
        check_queue(chain.queues[i as usize], q + 20 * i)?;
    }
    Ok(())
}

// 4 of the node rows of a chain, whose table stands at `w`.
#[tactic(auto, using(crate::proofs::Passing::passing))]
fn check_nodes(chain: &Chain, w: u32) -> Result<(), Refused>
    requires { RowsAt chain.now.n 4 w }
    ensures { said result ≡ first (tab chain.now.n (λ i. node_range (work_of chain.now i) (w + 4 * i))) }
{
    for i in 0..chain.n {
        check_field(w + 4 * i, 1, 1000000, chain.work[i as usize])?;
    }
    Ok(())
}

// 5 of a chain, whose queue table stands at `q`.
#[tactic(auto, using(crate::proofs::Passing::passing), unfolding(crate::specs::Checks::order_check))]
fn check_order(chain: &Chain, q: u32) -> Result<(), Refused>
    requires { RowsAt chain.now.n 20 q }
    ensures { said result ≡ order_check chain.now q }
{
    for i in 0..chain.n {
        let row = chain.queues[i as usize];
        test(
            Reason::RowOrder,
            q + 20 * i + 8,
            row.threshold < row.consume,
        )?;
    }
    Ok(())
}

// 4 of one queue row that stands at `at`, in field order.
#[tactic(auto, using(crate::proofs::Passing::passing), unfolding(crate::specs::Sound::row_range, crate::specs::Checks::row_fields))]
fn check_queue(row: Queue, at: u32) -> Result<(), Refused>
    requires { RowPlace at }
    ensures { said result ≡ row_range row at }
{
    check_field(at, 1, 65535, row.produce)?;
    check_field(at + 4, 1, 65535, row.threshold)?;
    check_field(at + 8, 1, 65535, row.consume)?;
    check_field(at + 12, 0, 1000000, row.capacity)?;
    check_field(at + 16, 0, 0, row.reserved)
}

// 4 of one word: it is refused at its place where it is out of range.
fn check_field(place: u32, least: u32, most: u32, v: u32) -> Result<(), Refused>
    ensures { said result ≡ out_of_range (field place least most v) }
{
    test(Reason::FieldRange, place, is_outside(v, least, most))
}

// Whether a number is below the least or above the most.
fn is_outside(v: u32, least: u32, most: u32) -> bool
    ensures { result ≡ outside least most v }
{
    v < least || most < v
}
