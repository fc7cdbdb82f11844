// The greatest common divisor, and division where the divisor is often 1; the laws of division, remainders, gcd and widths
// that other crates cite are in specs/.
#![tactic(auto)]

ghost use Rattle.std.specs.Prelude.{◌≡◌, ◌/◌};
ghost use Rattle.arith.specs.Gcd.{gcd};
ghost use Rattle.arith.specs.Division.{Divisor};
ghost use Rattle.arith.specs.Binary.{OddPart};

// The greatest number that divides both `a` and `b`; where one of them is 0, the other. The twos that both have are left out and
// put back at the end; of odd numbers, the lesser and the odd part of their distance have the same gcd.
pub fn gcd(a: u32, b: u32) -> u32
    ensures { result ≡ gcd a b }
{
    if a == 0 {
        return b;
    }
    if b == 0 {
        return a;
    }
    let twos = a.trailing_zeros().min(b.trailing_zeros());
    let mut x = odd_part(a);
    let mut y = odd_part(b);
    while x != y {
        let apart = x.abs_diff(y);
        x = x.min(y);
        y = odd_part(apart);
    }
    x << twos
}

// `n` without its factors of two.
fn odd_part(n: u32) -> u32
    requires { Divisor n }
    ensures { OddPart n result }
{
    n >> n.trailing_zeros()
}

// `n` over `d`, rounded down. A gcd is 1 more often than not, and a comparison is cheaper than a division.
pub fn quotient(n: u32, d: u32) -> u32
    requires { Divisor d }
    ensures { result ≡ n / d }
{
    if d == 1 { n } else { n / d }
}
