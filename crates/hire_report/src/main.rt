// Reads entries from standard input, one decimal a line, and writes the report of their history to standard output.
#![tactic(auto)]

use report::Reader;
use std::fmt;
use std::io::Read;

// How many bytes a turn of reading asks for.
const PART: usize = 65_536;

#[derive(Clone, Copy, Debug, PartialEq, Eq)]
enum Failure {
    Unread,
    Unwritten,
}

impl fmt::Display for Failure {
    fn fmt<W: fmt::Write>(&self, f: &mut fmt::Formatter<W>) -> fmt::Result {
        f.write_str(match self {
            Failure::Unread => "standard input cannot be read; no report is given",
            Failure::Unwritten => "the report cannot be written",
        })
    }
}

// A proved loop has to end, and nothing says that the input does: the turns are counted up to a number that no run comes to.
fn read_all(input: &mut impl Read, book: &mut [u64]) -> Result<Reader, Failure> {
    let mut part = [0u8; PART];
    let mut reader = Reader::fresh();
    for _ in 0..u64::MAX {
        let n = input.read(&mut part).map_err(|_| Failure::Unread)?;
        if n == 0 {
            break;
        }
        reader = report::feed(reader, &part[..n], book).map_err(|_| Failure::Unread)?;
    }
    Ok(reader)
}

fn run(rt: &impl Print, input: &mut impl Read) -> Result<(), Failure> {
    let mut book = [0u64; hire_book::BOOK];
    let mut out = [0u8; page::REPORT_BYTES];
    let reader = read_all(input, &mut book)?;
    let count = report::finish(reader, &mut book, &mut out).map_err(|_| Failure::Unwritten)?;
    rt.write_all(&out[..count]).map_err(|_| Failure::Unwritten)
}

// What went wrong is told on standard error. The status stays 0 even where this cannot be written: bin/hire-report goes by the output.
fn main(rt: HostRuntime) {
    let mut input = rt.reader();
    if let Err(failure) = run(&rt, &mut input) {
        let _ = eprintln!(rt; "hire-report: {failure}");
    }
}
