// The report program: reads a chain file from standard input and prints its report, or the line of its refusal.
// No contract can say what the system reads or writes. So `respond` is the program over any reader and any writer, whose
// bytes a contract can name, and `main` hands it the system's.
#![tactic(auto)]

ghost use Rattle.std.specs.Prelude.{◌≡◌, ◌≤◌, ◌<◌, length, take, IfOk, IfSome, OnErr, OnOk};
ghost use Rattle.std.specs.Io.KnownBytes.{Appends};
ghost use Rattle.ardenquill.specs.Reports.{longest_report};
ghost use Rattle.chainreport.specs.Printed.{printed};
ghost use Rattle.chainreport.specs.Input.{longest_file, IsPrefixLen, Holds, LosesNothing};

use std::io;
use std::io::{Read, Write};

fn main(rt: HostRuntime) -> io::Result<()> {
    respond(&mut rt.stdin(), &mut rt.stdout())
}

// Reads a chain file from `input` and prints its report, or the line of its refusal, to `output`. A read or a write that
// fails ends it with that error.
fn respond<R: Read, W: Write>(input: &mut R, output: &mut W) -> io::Result<()>
    ensures { OnOk result (IfSome (R.remaining input.old) (λ i. Appends (W.contents output.old) (W.contents output.new) (printed i))) }
{
    let mut file = [0u8; 4097];
    let n = read(input, &mut file)?;
    let mut text = [0u8; ardenquill::LONGEST_REPORT];
    let end = answer(&file[..n], &mut text);
    print(&file[..n], &text[..end], output)
}

// Reads the input to its end or until `file` is full, and answers how many bytes it put at the front of `file`.
// One byte more than the longest file shows that the input is too long. The loop is its own, since std's `read_to_end` asks
// for a heap.
fn read<R: Read>(input: &mut R, file: &mut [u8]) -> io::Result<usize>
    requires { longest_file < length file.old }
    ensures prefix_len { IfOk result (λ n. IsPrefixLen n file.new) }
    ensures holds { IfOk result (λ n. IfSome (R.remaining input.old) (λ i. Holds i file.new n)) }
    ensures failed { OnErr result (LosesNothing (R.remaining input.old) (R.remaining input.new) file.new) }
{
    let mut end = 0;
    while end < file.len() {
        let n = input.read(&mut file[end..])?;
        if n == 0 {
            break;
        }
        end += n;
    }
    Ok(end)
}

// Makes what is to be printed of a file at the front of `text`, and answers its length.
fn answer(file: &[u8], text: &mut [u8]) -> usize
    requires { longest_report ≤ length text.old }
    ensures prefix_len { IsPrefixLen result text.new }
    ensures answers { take result text.new ≡ printed file.now }
{
    match ardenquill::report(file, text) {
        Ok(length) => length,
        Err(refused) => ardenquill::refusal_line(refused.number(), refused.place, text).unwrap(),
    }
}

// Prints `text`. The bytes that were read are a parameter for the contract's sake alone: it asks that `text` is what is
// to be printed of them.
fn print<W: Write>(file: &[u8], text: &[u8], output: &mut W) -> io::Result<()>
    requires { text.now ≡ printed file.now }
    ensures { OnOk result (Appends (W.contents output.old) (W.contents output.new) text.now) }
{
    output.write_all(text)
}
