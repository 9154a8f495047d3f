// The report of a hire book's history (document 01, end of "The hire book"): entries read as decimal lines, in parts of any size, and the pumps with charged days written.
#![tactic(auto)]

ghost use Rattle.std.specs.Prelude.{◌≡◌, ◌≤◌, length, IfOk};
ghost use Rattle.decimal.specs.Text.{Put};
ghost use Rattle.hire_book.specs.Book.{Sound};
ghost use Rattle.report.specs.Reading.{fresh_reader, value_after, with_byte, line_after, next_line, marked, reading, end_of, byte_of, feed_of, last_of, output_of};
ghost use Rattle.page.specs.Page.{report_bytes};
ghost use Rattle.report.specs.Step.{seen_fed, feed_step, seen_report, Counted, finish_step};

use base::Refusal;

// The value of a line that no further byte makes fit.
const UNFIT: u64 = base::MAX_ENTRY + 1;

// Where a reader is: the number of the line that it reads, counted from 1; whether the line has a byte; what its digits say, above the entry limit where
// the line is unfit; and whether the line is bad, after which all is skipped.
// Kept: four fields, and no enum for the line, since feed and finish promise their outcome for every value of the four (`Reading.with_byte`, `next_line`, `marked`, `end_of`).
#[derive(Clone, Copy, Debug, PartialEq, Eq)]
pub struct Reader {
    pub line: u64,
    pub any: bool,
    pub value: u64,
    pub bad: bool,
}

// What a line's digits say with one byte more; above the entry limit it stays, so that no sum wraps.
#[tactic(auto, unfolding(crate::specs::Reading::value_after))]
fn value_after(value: u64, byte: u8) -> u64
    ensures { result ≡ value_after value byte }
{
    if !byte.is_ascii_digit() {
        return UNFIT;
    }
    if base::MAX_ENTRY < value {
        return value;
    }
    value * 10 + u64::from(byte - b'0')
}

// The next line's number, which stays at the largest that 64 bits hold.
#[tactic(auto, unfolding(crate::specs::Reading::line_after))]
fn line_after(line: u64) -> u64
    ensures { result ≡ line_after line }
{
    line.saturating_add(1)
}

impl Reader {
    pub fn fresh() -> Self
        ensures { result ≡ fresh_reader }
    {
        Reader {
            line: 1,
            any: false,
            value: 0,
            bad: false,
        }
    }

    fn with_byte(&mut self, byte: u8)
        ensures { self.new ≡ with_byte byte self.old }
    {
        self.any = true;
        self.value = value_after(self.value, byte);
    }

    fn next_line(&mut self)
        ensures { self.new ≡ next_line self.old }
    {
        self.line = line_after(self.line);
        self.any = false;
        self.value = 0;
    }

    fn marked(&mut self)
        ensures { self.new ≡ marked self.old }
    {
        self.bad = true;
    }

    // A line ends: its entry is applied, or the line is bad.
    #[tactic(auto, unfolding(crate::specs::Reading::end_of))]
    fn end_line(&mut self, book: &mut [u64])
        requires { Sound book.old }
        ensures { reading self.new book.new ≡ end_of (reading self.old book.old) }
    {
        if !self.any || base::MAX_ENTRY < self.value {
            self.marked();
        } else {
            hire_book::apply_fit(book, self.value);
            self.next_line();
        }
    }

    // A byte of a line, or the line's end; after a bad line all is skipped.
    #[tactic(auto, unfolding(crate::specs::Reading::byte_of))]
    fn take_byte(&mut self, byte: u8, book: &mut [u64])
        requires { Sound book.old }
        ensures { reading self.new book.new ≡ byte_of byte (reading self.old book.old) }
    {
        if self.bad {
            return;
        }
        if byte == b'\n' {
            self.end_line(book);
        } else {
            self.with_byte(byte);
        }
    }

    // In place, since this runs for every byte: a reader by value is copied at each turn, which takes twice the time.
    #[tactic(auto, unfolding(crate::specs::Reading::feed_of))]
    fn take_part(self, part: &[u8], book: &mut [u64]) -> Self
        requires { Sound book.old }
        ensures { reading result book.new ≡ feed_of (reading self book.old) part.now }
    {
        let mut at = self;
        for &byte in part {
            at.take_byte(byte, book);
        }
        at
    }

    // The input ends: a line that has begun ends too.
    #[tactic(auto, unfolding(crate::specs::Reading::last_of))]
    fn take_last(mut self, book: &mut [u64]) -> Self
        requires { Sound book.old }
        ensures { reading result book.new ≡ last_of (reading self book.old) }
    {
        if self.any && !self.bad {
            self.end_line(book);
        }
        self
    }

    #[tactic(auto, unfolding(crate::specs::Reading::output_of))]
    fn put_report(self, book: &[u64], out: &mut [u8]) -> usize
        requires sound { Sound book.now }
        requires report_bytes_in_bounds { report_bytes ≤ length out.old }
        ensures { Put out.old 0 (output_of (reading self book.now)) result out.new }
    {
        if self.bad {
            page::put_bad_line(out, self.line)
        } else {
            page::put_page(out, book)
        }
    }
}

// A part of the input, taken in order after the parts before it; refused with 1 or 2, the reader that was passed goes on, and the book stays.
#[tactic(auto, unfolding(crate::specs::Step::feed_step))]
pub fn feed(reader: Reader, part: &[u8], book: &mut [u64]) -> Result<Reader, Refusal>
    ensures { seen_fed result reader book.new ≡ feed_step (reading reader book.old) part.now }
{
    hire_book::check(book)?;
    Ok(reader.take_part(part, book))
}

// The input ends, and the whole report is written to the start of `out`, whose further bytes stay as found; the answer counts its bytes. Refused with 1
// where the book is of the wrong length or `out` is shorter than page::REPORT_BYTES, with 2 where the book is broken; then all stays.
#[tactic(auto, unfolding(crate::specs::Step::finish_step))]
pub fn finish(reader: Reader, book: &mut [u64], out: &mut [u8]) -> Result<usize, Refusal>
    ensures out_after { seen_report result book.new out.new ≡ finish_step (reading reader book.old) out.old }
    ensures counted { IfOk result (λ count. Counted count out.new) }
{
    if out.len() < page::REPORT_BYTES {
        return Err(Refusal::WrongCall);
    }
    hire_book::check(book)?;
    let last = reader.take_last(book);
    Ok(last.put_report(book, out))
}
