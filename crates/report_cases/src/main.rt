// Reports of inputs that are easily got wrong, each fed whole and in parts of two sizes.
#![tactic(auto)]

ghost use Rattle.std.specs.Prelude.{◌≤◌, ◌<◌, length, IfOk};

use base::Refusal;
use report::Reader;
use std::io;

// Feeds the input in parts of `cut` bytes.
fn feed_all(input: &[u8], cut: usize, book: &mut [u64]) -> Result<Reader, Refusal>
    requires { 0 < cut }
{
    let mut reader = Reader::fresh();
    for part in input.chunks(cut) {
        reader = report::feed(reader, part, book)?;
    }
    Ok(reader)
}

// Puts the input's report into `out`, and answers how many bytes it has.
fn put_report(input: &[u8], cut: usize, out: &mut [u8]) -> Result<usize, Refusal>
    requires { 0 < cut }
    ensures { IfOk result (λ count. count ≤ length out.new) }
{
    let mut book = [0u64; hire_book::BOOK];
    let reader = feed_all(input, cut, &mut book)?;
    report::finish(reader, &mut book, out)
}

fn write_report(rt: &impl Print, input: &[u8], cut: usize) -> io::Result<()>
    requires { 0 < cut }
{
    let mut out = [0u8; page::REPORT_BYTES];
    match put_report(input, cut, &mut out) {
        Ok(count) => rt.write_all(&out[..count]),
        Err(refusal) => println!(rt; "refused: {refusal}"),
    }
}

// One input, fed whole, in the larger parts and in the smaller ones.
fn cut_case(
    rt: &impl Print,
    name: &str,
    input: &[u8],
    larger: usize,
    smaller: usize,
) -> io::Result<()>
    requires larger { 0 < larger }
    requires smaller { 0 < smaller }
{
    println!(rt; "-- {name}")?;
    write_report(rt, input, usize::MAX)?;
    write_report(rt, input, larger)?;
    write_report(rt, input, smaller)
}

fn case(rt: &impl Print, name: &str, input: &[u8]) -> io::Result<()> {
    cut_case(rt, name, input, 3, 1)
}

fn long_case(rt: &impl Print, name: &str, input: &[u8]) -> io::Result<()> {
    cut_case(rt, name, input, 999, 100)
}

const CASES: [(&str, &[u8]); 22] = [
    ("no bytes", b""),
    ("a lone line end", b"\n"),
    ("out and back", b"5127\n7431\n"),
    ("the last line end missing", b"5127\n7431"),
    ("a second back", b"5127\n7431\n7431\n"),
    ("an empty line after the last", b"5127\n7431\n\n"),
    ("a bad line 3", b"5127\n7431\n12a\n7431\nb\n"),
    ("a bad last line with no line end", b"5127\n7431x"),
    (
        "leading zeros",
        b"005127\n0000000000000000000000000000007431\n0\n000\n",
    ),
    ("the entry limit", b"33554431\n"),
    ("above the entry limit", b"33554432\n"),
    ("ten times the entry limit", b"335544310\n"),
    ("above 64 bits", b"18446744073709551616\n"),
    (
        "above 64 bits, in a last line with no line end",
        b"1\n18446744073709556743",
    ),
    ("CR LF", b"5127\r\n7431\r\n"),
    ("a space before", b" 5127\n"),
    ("a space after", b"5127 \n"),
    ("a minus sign", b"-1\n"),
    ("the byte below 0", b"1\n/\n"),
    ("the byte above 9", b"1\n:\n"),
    ("byte 0", b"5127\n\0\n"),
    ("byte 255", b"5127\n\xff\n"),
];

// A number of a thousand digits, and one with a thousand zeros before it.
fn long(rt: &impl Print) -> io::Result<()> {
    let mut digits = [b'9'; 1000];
    long_case(rt, "a thousand digits", &digits)?;
    let mut zeros = [b'0'; 1000];
    zeros[999] = b'7';
    long_case(rt, "a thousand digits that say 7", &zeros)?;
    digits[0] = b'\n';
    long_case(rt, "an empty line, then a long one", &digits)
}

// Pumps 255, 10, 9, 0 out and back in that order: 65,535 days, 1, 10 and none, the last back on its out day; and pump 1, which stays away.
fn rows(rt: &impl Print) -> io::Result<()> {
    case(
        rt,
        "rows in rising order",
        b"255\n33554431\n10\n778\n9\n5385\n0\n256\n1\n",
    )
}

fn main(rt: HostRuntime) -> io::Result<()> {
    for (name, input) in CASES {
        case(&rt, name, input)?;
    }
    long(&rt)?;
    rows(&rt)
}
