// What one queue needs: the minimum with the naming count of its numbers, the capacity in force and the margin.
// The divisions that the rates make too, gcd and share, come with the numbers, so that each is done once.
#![tactic(auto)]

ghost use Rattle.std.specs.Prelude.{◌≡◌};
ghost use Rattle.onequeue.specs.Least.{least};
ghost use Rattle.onequeue.specs.Known.{Known};
ghost use Rattle.onequeue.specs.Capacity.{capacity, margin, Within};

// A queue's produce, threshold and consume, with the gcd of produce and consume and its quotient in consume.
#[derive(Clone, Copy)]
pub struct Row {
    pub produce: u32,
    pub threshold: u32,
    pub consume: u32,
    pub g: u32,
    pub share: u32,
}

// A queue's minimum, and its naming count: when its producer has fired so often, the queue has held at least the minimum.
#[derive(Clone, Copy)]
pub struct Shown {
    pub minimum: u32,
    pub by: u32,
}

// The minimum b, the largest multiple of g below the threshold plus the produce, with the naming count.
pub fn least(q: Row) -> Shown
    requires { Known q }
    ensures { result ≡ least 0 q.produce q.threshold q.consume }
{
    let last = q.threshold - 1;
    let minimum = last - last % q.g + q.produce;
    let by = (q.threshold - q.consume).div_ceil(q.produce) + q.share;
    Shown { minimum, by }
}

// The capacity in force: the word as written, or the minimum where that is 0. The word is that of C's record, so no `Option`.
pub fn capacity(written: u32, minimum: u32) -> u32
    ensures { result ≡ capacity written minimum }
{
    if written == 0 { minimum } else { written }
}

// The margin: how far the capacity in force is above the minimum, negative where it is below. Both casts are proved to lose
// nothing; `try_from` would only add an error that cannot come.
pub fn margin(capacity: u32, minimum: u32) -> i32
    requires { Within capacity minimum }
    ensures { result ≡ margin capacity minimum }
{
    capacity as i32 - minimum as i32
}
