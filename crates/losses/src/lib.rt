// The list of losses of a recording run: which productions were dropped, when, and how many tokens they had. One pass over
// the list says whether it is refused, and how many tokens each queue lost.
#![tactic(auto)]

ghost use Rattle.chain.specs.Faults.{Few};
ghost use Rattle.losses.specs.Tally.{TallyGives};

use chain::{Reason, Refused};

// One production that was dropped whole.
#[repr(C)]
#[derive(Clone, Copy)]
pub struct Loss {
    pub tick: u32,
    pub queue: u32,
    pub tokens: u32,
}

// The losses so far, in order, as C has them; the slots from count on are no entries.
#[repr(C)]
#[derive(Clone, Copy)]
pub struct Losses {
    pub count: u32,
    pub entries: [Loss; 256],
}

// The slot of no entry.
pub const NO_LOSS: Loss = Loss {
    tick: 0,
    queue: 0,
    tokens: 0,
};

// Nothing was lost.
pub const NONE: Losses = Losses {
    count: 0,
    entries: [NO_LOSS; 256],
};

// The most entries of a list.
pub const LONGEST: u32 = 256;

// A list that is too long, or that names a queue which the chain does not have.
const REFUSED: Refused = Refused {
    reason: Reason::BrokenState,
    place: 0,
};

// The tokens that each queue lost by the list of a chain of n queues, or 17 of the list.
pub fn tallied(n: u32, losses: &Losses) -> Result<[u64; 16], Refused>
    requires { Few n }
    ensures { TallyGives n losses.now result }
{
    if LONGEST < losses.count {
        return Err(REFUSED);
    }
    let mut lost: [u64; 16] = [0; 16];
    for k in 0..losses.count as usize {
        let loss = losses.entries[k];
        if n <= loss.queue {
            return Err(REFUSED);
        }
        lost[loss.queue as usize] += u64::from(loss.tokens);
    }
    Ok(lost)
}
