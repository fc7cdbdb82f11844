// Numbers as decimal text, written where there is room by a writer, which stands behind the text then; what the text is, is
// in specs/. They are functions, since the writer is of another crate.
#![tactic(auto)]

ghost use Rattle.std.specs.Prelude.{◌≡◌, ◌+◌, ◌≤◌, length};
ghost use Rattle.words.specs.Writer.{Free, Wrote};
ghost use Rattle.decimal.specs.Digits.{last_digit, decimal, column};
ghost use Rattle.decimal.specs.Signed.{integer};

use words::Writer;

// Writes n: the last digit first, into the last of the places that n takes.
pub fn put_decimal(out: &mut Writer, n: u32)
    requires { Free out.old 10 }
    ensures { Wrote out.old (decimal n) out.new × (out.new.at ≤ out.old.at + 10) }
{
    let end = out.at + width(n);
    let mut rest = n;
    for i in (out.at..end).rev() {
        out.out[i] = digit(rest);
        rest /= 10;
    }
    out.at = end;
}

// Writes n and one byte behind it.
pub fn put_column(out: &mut Writer, n: u32, b: u8)
    requires { Free out.old 11 }
    ensures { Wrote out.old (column n b) out.new × (out.new.at ≤ out.old.at + 11) }
{
    put_decimal(out, n);
    out.byte(b);
}

// Writes z, a minus sign before it where it is negative.
pub fn put_integer(out: &mut Writer, z: i32)
    requires { Free out.old 11 }
    ensures { Wrote out.old (integer z) out.new × (out.new.at ≤ out.old.at + 11) }
{
    let n = z.unsigned_abs();
    if z < 0 {
        out.byte(b'-');
        put_decimal(out, n)
    } else {
        put_decimal(out, n)
    }
}

// How many digits n has: one more for each power of ten that it reaches, and 0 has one too. (No `From` leads to usize.)
fn width(n: u32) -> usize
    ensures { (result ≡ length (decimal n)) × (result ≤ 10) }
{
    n.max(1).ilog10() as usize + 1
}

// The byte of n's last digit. The cast is proved to lose nothing; `try_from` would only add an error that cannot come.
fn digit(n: u32) -> u8
    ensures { result ≡ last_digit n }
{
    b'0' + (n % 10) as u8
}
