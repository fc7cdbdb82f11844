// Why a call refuses, and where: the error of every call that can refuse.
ghost use Rattle.std.specs.Prelude.{◌≡◌};
ghost use Rattle.chain.specs.Said.{code};

// What a call can be refused for, each with its number.
#[derive(Clone, Copy, Debug, PartialEq, Eq)]
pub enum Reason {
    FileLength = 1,
    QueueCount = 2,
    TablePlace = 3,
    FieldRange = 4,
    RowOrder = 5,
    RateTooLarge = 6,
    Overload = 7,
    CapacityTooSmall = 8,
    RunTooLong = 9,
    NoRoom = 10,
    NodeNotReady = 11,
    QueueFull = 12,
    DeadlineTooLate = 13,
    NoFactoryChain = 14,
    BrokenState = 17,
}

// A refusal: the reason with its place.
#[derive(Clone, Copy, Debug, PartialEq, Eq)]
pub struct Refused {
    pub reason: Reason,
    pub place: u32,
}

impl Refused {
    // The number of the reason.
    pub fn number(&self) -> u32
        ensures { result ≡ code self.now.reason }
    {
        self.reason as u32
    }
}
