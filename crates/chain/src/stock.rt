// The factory chains, fixed in the product as three tables: periods, queue rows and execution times. A chain has two
// places in the tables of rows and times; `COUNTS` says how many it uses.
ghost use Rattle.std.specs.Prelude.{◌≡◌};
ghost use Rattle.chain.specs.Said.{chain_said};
ghost use Rattle.chain.specs.Factory.{factory_answer};

use crate::{Chain, EMPTY, Reason, Refused};
use words::Queue;

const COUNTS: [u32; 3] = [1, 2, 2];

const PERIODS: [u32; 3] = [10, 5, 100];

const ROWS: [Queue; 6] = [
    Queue {
        produce: 4,
        threshold: 7,
        consume: 3,
        capacity: 0,
        reserved: 0,
    },
    words::NONE,
    Queue {
        produce: 4,
        threshold: 7,
        consume: 3,
        capacity: 0,
        reserved: 0,
    },
    Queue {
        produce: 3,
        threshold: 4,
        consume: 2,
        capacity: 0,
        reserved: 0,
    },
    Queue {
        produce: 16,
        threshold: 64,
        consume: 16,
        capacity: 0,
        reserved: 0,
    },
    Queue {
        produce: 1,
        threshold: 8,
        consume: 8,
        capacity: 0,
        reserved: 0,
    },
];

const TIMES: [u32; 6] = [2, 0, 1, 1, 5, 3];

// The factory chain of a number: 0 Feed, 1 Permeate, 2 Flush; any other number is refused 14.
pub fn factory(number: u32) -> Result<Chain, Refused>
    ensures { chain_said result ≡ factory_answer number }
{
    if 2 < number {
        return Err(Refused {
            reason: Reason::NoFactoryChain,
            place: number,
        });
    }
    let i = number as usize;
    let mut chain = EMPTY;
    chain.n = COUNTS[i];
    chain.period = PERIODS[i];
    chain.queues[0] = ROWS[2 * i];
    chain.queues[1] = ROWS[2 * i + 1];
    chain.work[0] = TIMES[2 * i];
    chain.work[1] = TIMES[2 * i + 1];
    Ok(chain)
}
