// The lines of a report, put into a lent buffer: `bad line N`, or the pumps with charged days and the total.
#![tactic(auto)]

ghost use Rattle.std.specs.Prelude.{◌≡◌, ◌+◌, ◌*◌, ◌≤◌, length};
ghost use Rattle.base.specs.Limits.{pumps};
ghost use Rattle.decimal.specs.Text.{Put};
ghost use Rattle.hire_book.specs.Book.{charged, stored_days, Sound};
ghost use Rattle.page.specs.Page.{bad_line_of, row_of, rows_below, page_of, row_bytes, report_bytes};

// The bytes that a report never passes: the heading, a line for each pump, and the total.
pub const REPORT_BYTES: usize = 10 + base::PUMPS * ROW_BYTES + 15;

const ROW_BYTES: usize = 10;

// `bad line N`.
#[tactic(auto, unfolding(crate::specs::Page::bad_line_of))]
pub fn put_bad_line(out: &mut [u8], line: u64) -> usize
    requires { report_bytes ≤ length out.old }
    ensures { Put out.old 0 (bad_line_of line) result out.new }
{
    let number = decimal::put_text(out, 0, b"bad line ");
    let end = decimal::put_decimal(out, number, line);
    decimal::put(out, end, b'\n')
}

// A line for a pump with at least one charged day.
fn put_row(out: &mut [u8], at: usize, pump: u64, days: u64) -> usize
    requires { at + length (row_of pump days) ≤ length out.old }
    ensures { Put out.old at (row_of pump days) result out.new }
{
    if days == 0 {
        return at;
    }
    let space = decimal::put_decimal(out, at, pump);
    let number = decimal::put(out, space, b' ');
    let end = decimal::put_decimal(out, number, days);
    decimal::put(out, end, b'\n')
}

// The pumps with at least one charged day, in rising order.
#[tactic(auto, unfolding(crate::specs::Page::rows_below))]
fn put_rows(out: &mut [u8], at: usize, book: &[u64]) -> usize
    requires sound { Sound book.now }
    requires row_bytes_in_bounds { at + pumps * row_bytes ≤ length out.old }
    ensures { Put out.old at (rows_below (charged book.now) pumps) result out.new }
{
    let mut next = at;
    for pump in 0..base::PUMPS {
        let days = book[pump * hire_book::CELLS + hire_book::CHARGED];
        next = put_row(out, next, pump as u64, days);
    }
    next
}

// The heading, the pumps' lines and the total.
#[tactic(auto, unfolding(crate::specs::Page::page_of))]
pub fn put_page(out: &mut [u8], book: &[u64]) -> usize
    requires sound { Sound book.now }
    requires report_bytes_in_bounds { report_bytes ≤ length out.old }
    ensures { Put out.old 0 (page_of (charged book.now) (stored_days book.now)) result out.new }
{
    let rows = decimal::put_text(out, 0, b"pump days\n");
    let total = put_rows(out, rows, book);
    let number = decimal::put_text(out, total, b"total ");
    let end = decimal::put_decimal(out, number, hire_book::sum_days(book));
    decimal::put(out, end, b'\n')
}
