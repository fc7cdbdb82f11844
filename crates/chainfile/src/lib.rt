// The chain file: a reader that takes any bytes of any length, and a writer of the packed file.
#![tactic(auto)]

ghost use Rattle.std.specs.Prelude.{◌≡◌};
ghost use Rattle.chainfile.specs.Packed.{length_said};

mod reader;
mod writer;

use chain::Refused;
pub use reader::read;
pub use writer::write;

// How many bytes were written, or the refusal, as C has it.
#[repr(C)]
#[derive(Clone, Copy)]
pub struct LengthAnswer {
    pub number: u32,
    pub place: u32,
    pub length: u64,
}

impl From<Result<usize, Refused>> for LengthAnswer {
    ghost from_gives = { λ r a. a ≡ length_said r };

    fn from(outcome: Result<usize, Refused>) -> LengthAnswer {
        match outcome {
            Ok(length) => LengthAnswer {
                number: 0,
                place: 0,
                length: length as u64,
            },
            Err(refused) => LengthAnswer {
                number: refused.number(),
                place: refused.place,
                length: 0,
            },
        }
    }
}
