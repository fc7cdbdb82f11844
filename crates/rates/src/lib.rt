// The rate of a node from that of the node before it, and the load so far. A queue comes with its gcd and its share, which
// its minimum and its naming count need too; so the gcd with x is that of the share alone, and every division has 32 bits.
#![tactic(auto)]

ghost use Rattle.std.specs.Prelude.{◌≡◌, ◌+◌, ◌*◌};
ghost use Rattle.rates.specs.Rates.{rate_after, Step};
ghost use Rattle.rates.specs.Load.{capped, Small};

use onequeue::Row;

// The rate of a node, x firings in y ticks, before it is known to fit 32 bits; y is `stretch` times that of the node before.
#[derive(Clone, Copy)]
pub struct Rate {
    pub x: u64,
    pub y: u64,
    pub stretch: u32,
}

// The rate of the node that a queue feeds, where the node before it has the rate x in y.
pub fn rate_after(q: Row, x: u32, y: u32) -> Rate
    requires { Step q x }
    ensures { result ≡ rate_after q.produce q.consume x y }
{
    let common = arith::gcd(x, q.share);
    let stretch = arith::quotient(q.share, common);
    Rate {
        x: u64::from(arith::quotient(q.produce, q.g)) * u64::from(arith::quotient(x, common)),
        y: u64::from(stretch) * u64::from(y),
        stretch,
    }
}

// The busy ticks per y of the nodes so far, where those before this one had `busy` per the y before; y + 1 stands for
// every number above y, so that no sum passes 64 bits.
pub fn busy_after(busy: u64, stretch: u32, e: u32, x: u32, y: u32) -> u64
    requires { Small busy stretch e }
    ensures { result ≡ capped y (busy * stretch + e * x) }
{
    let sum = busy * u64::from(stretch) + u64::from(e) * u64::from(x);
    sum.min(u64::from(y) + 1)
}
