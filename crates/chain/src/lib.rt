// The chain record: the refusals, the checks 2, 4 and 5 of a chain's own numbers, and the factory chains.
#![tactic(auto)]

ghost use Rattle.std.specs.Prelude.{◌≡◌};
ghost use Rattle.chain.specs.Said.{chain_said};

mod checks;
mod reasons;
mod stock;

pub use checks::{check_chain, check_period, check_rows, count_check, is_fine, test};
pub use reasons::{Reason, Refused};
pub use stock::factory;
pub use words::Queue;

// One chain: n queues, the source's period, and for each queue its row and the execution time of the node it feeds.
// C has this layout, so the rows and the times stay two arrays beside their number.
#[repr(C)]
#[derive(Clone, Copy)]
pub struct Chain {
    pub n: u32,
    pub period: u32,
    pub queues: [Queue; 16],
    pub work: [u32; 16],
}

// A chain, or the refusal that stands in its place. C has this layout; code has a `Result<Chain, Refused>`.
#[repr(C)]
#[derive(Clone, Copy)]
pub struct ChainAnswer {
    pub number: u32,
    pub place: u32,
    pub chain: Chain,
}

// The chain of a refused call.
pub const EMPTY: Chain = Chain {
    n: 0,
    period: 0,
    queues: [words::NONE; 16],
    work: [0; 16],
};

impl From<Result<Chain, Refused>> for ChainAnswer {
    ghost from_gives = { λ r a. a ≡ chain_said r };

    fn from(outcome: Result<Chain, Refused>) -> ChainAnswer {
        match outcome {
            Ok(chain) => ChainAnswer {
                number: 0,
                place: 0,
                chain,
            },
            Err(refused) => ChainAnswer {
                number: refused.number(),
                place: refused.place,
                chain: EMPTY,
            },
        }
    }
}
