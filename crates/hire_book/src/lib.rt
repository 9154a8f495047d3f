// The hire book (document 01, "The hire book"): a lent row of cells, three a pump, to which entries are applied. specs/Book.antt has the layout.
#![tactic(auto)]

ghost use Rattle.std.specs.Prelude.{◌≡◌, false, ◌≤◌, ◌<◌, length, OnOk};
ghost use Rattle.base.specs.Limits.{pumps, max_day, max_entry};
ghost use Rattle.base.specs.Refusal.{answer_number};
ghost use Rattle.hire_book.specs.Hire.{out_kind, back_kind};
ghost use Rattle.hire_book.specs.Book.{book_length, broken_of, pump_broken, entered, apply_of, apply_all, any_above, stored_days, Sound};
ghost use Rattle.hire_book.specs.Step.{check_of, seen, apply_step, apply_all_step, fresh_step, is_broken_of, told, charged_step, total_step};

use base::Refusal;

// An entry is (day x KINDS + kind) x PUMPS + pump.
const PUMPS: u64 = base::PUMPS as u64;

const KINDS: u64 = 2;

const DAY: u64 = PUMPS * KINDS;

// A pump's cells, where each lies among them, and the book's.
// Kept: cells by index, and no struct for a pump or for a book that stands: C lends the words (docs/LAYOUT.md), and of a struct that holds them behind a
// `&mut` the prover does not know, once it is let go, that they are what its methods left (tried).
pub const CELLS: usize = 3;

pub const LAST_BACK: usize = 0;

pub const OPEN_OUT: usize = 1;

pub const CHARGED: usize = 2;

pub const BOOK: usize = base::PUMPS * CELLS;

#[tactic(auto, unfolding(crate::specs::Book::broken_at))]
fn pump_broken(book: &[u64], pump: usize) -> bool
    requires book_len { length book.now ≡ book_length }
    requires pump_lt_pumps { pump < pumps }
    ensures { result ≡ pump_broken book.now pump }
{
    let at = pump * CELLS;
    let back = book[at + LAST_BACK];
    let open_out = book[at + OPEN_OUT];
    base::MAX_DAY < back
        || base::MAX_DAY + 1 < open_out
        || back < book[at + CHARGED]
        || open_out != 0 && open_out - 1 < back
}

// Whether a book of the right length is broken (refusal 2).
#[tactic(auto, unfolding(crate::specs::Book::broken_of))]
pub fn any_broken(book: &[u64]) -> bool
    requires { length book.now ≡ book_length }
    ensures { result ≡ broken_of book.now }
{
    (0..base::PUMPS).any(|pump| pump_broken(book, pump))
}

// The same of any slice: one of the wrong length is broken.
#[tactic(auto, unfolding(crate::specs::Step::is_broken_of))]
pub fn is_broken(book: &[u64]) -> bool
    ensures { result ≡ is_broken_of book.now }
{
    book.len() != BOOK || any_broken(book)
}

// Refusals 1 and 2 of a lent book.
pub fn check(book: &[u64]) -> Result<(), Refusal>
    ensures answer { answer_number result ≡ check_of book.now }
    ensures sound { OnOk result (Sound book.now) }
{
    if book.len() != BOOK {
        Err(Refusal::WrongCall)
    } else if any_broken(book) {
        Err(Refusal::Broken)
    } else {
        Ok(())
    }
}

// Whether some entry is above its limit.
#[tactic(auto, unfolding(crate::specs::Below::any_below, crate::specs::Book::any_above))]
pub fn any_above(entries: &[u64]) -> bool
    ensures { result ≡ any_above entries.now }
{
    entries.iter().any(|&entry| base::MAX_ENTRY < entry)
}

// An out counts if the pump is in the yard and the day is not below its last counted back.
#[tactic(auto, unfolding(crate::specs::Book::entered))]
fn take_out(book: &mut [u64], pump: usize, day: u64)
    requires sound { Sound book.old }
    requires pump_lt_pumps { (pump < pumps) × (day ≤ max_day) }
    ensures { book.new ≡ entered pump out_kind day book.old }
{
    let at = pump * CELLS;
    if book[at + OPEN_OUT] == 0 && book[at + LAST_BACK] <= day {
        book[at + OPEN_OUT] = day + 1;
    }
}

// A back counts if the pump is away and the day is not below its out day. It charges the days from out up to, not including, back.
#[tactic(auto, unfolding(crate::specs::Book::entered))]
fn bring_back(book: &mut [u64], pump: usize, day: u64)
    requires sound { Sound book.old }
    requires pump_lt_pumps { (pump < pumps) × (day ≤ max_day) }
    ensures { book.new ≡ entered pump back_kind day book.old }
{
    let at = pump * CELLS;
    let open = book[at + OPEN_OUT];
    if open == 0 || day < open - 1 {
        return;
    }
    book[at + LAST_BACK] = day;
    book[at + OPEN_OUT] = 0;
    book[at + CHARGED] += day - (open - 1);
}

// One entry, with no test of the book: callers that keep a sound book use this.
pub fn apply_fit(book: &mut [u64], entry: u64)
    requires sound { Sound book.old }
    requires le_max_entry { entry ≤ max_entry }
    ensures { book.new ≡ apply_of entry book.old }
{
    let pump = (entry % PUMPS) as usize;
    let day = entry / DAY;
    if entry / PUMPS % KINDS == 0 {
        take_out(book, pump, day);
    } else {
        bring_back(book, pump, day);
    }
}

// Entries in order, with no test of the book.
#[tactic(auto, unfolding(crate::specs::Book::apply_all))]
pub fn apply_run(book: &mut [u64], entries: &[u64])
    requires sound { Sound book.old }
    requires entries_value { any_above entries.now ≡ false }
    ensures { book.new ≡ apply_all entries.now book.old }
{
    for &entry in entries {
        apply_fit(book, entry);
    }
}

// One entry applied to a book; refused with 1, 2 or 4, the book stays.
#[tactic(auto, unfolding(crate::specs::Step::apply_step))]
pub fn apply(book: &mut [u64], entry: u64) -> Result<(), Refusal>
    ensures { seen (answer_number result) book.new ≡ apply_step book.old entry }
{
    check(book)?;
    if base::MAX_ENTRY < entry {
        return Err(Refusal::Unfit);
    }
    apply_fit(book, entry);
    Ok(())
}

// Entries in order applied to a book; refused with 1, 2 or 4, the book stays.
#[tactic(auto, unfolding(crate::specs::Step::apply_all_step))]
pub fn apply_all(book: &mut [u64], entries: &[u64]) -> Result<(), Refusal>
    ensures { seen (answer_number result) book.new ≡ apply_all_step book.old entries.now }
{
    check(book)?;
    if any_above(entries) {
        return Err(Refusal::Unfit);
    }
    apply_run(book, entries);
    Ok(())
}

// A book in which nothing was entered; refused with 1, the slice stays.
#[tactic(auto, unfolding(crate::specs::Step::fresh_step, crate::specs::Book::fresh_book))]
pub fn fresh(book: &mut [u64]) -> Result<(), Refusal>
    ensures { seen (answer_number result) book.new ≡ fresh_step book.old }
{
    if book.len() != BOOK {
        return Err(Refusal::WrongCall);
    }
    book.fill(0);
    Ok(())
}

// The stored days of a pump; refused with 1, 2, or 4 for a pump that is none.
#[tactic(auto, unfolding(crate::specs::Step::charged_step))]
pub fn charged_days(book: &[u64], pump: u64) -> Result<u64, Refusal>
    ensures { told result ≡ charged_step book.now pump }
{
    check(book)?;
    if PUMPS <= pump {
        return Err(Refusal::Unfit);
    }
    Ok(book[pump as usize * CELLS + CHARGED])
}

// The stored days of all pumps, with no test of the book.
#[tactic(auto, unfolding(crate::specs::Below::sum_below))]
pub fn sum_days(book: &[u64]) -> u64
    requires { Sound book.now }
    ensures { result ≡ stored_days book.now }
{
    let mut sum = 0;
    for pump in 0..base::PUMPS {
        sum += book[pump * CELLS + CHARGED];
    }
    sum
}

// The stored days of all pumps; refused with 1 or 2.
#[tactic(auto, unfolding(crate::specs::Step::total_step))]
pub fn total_days(book: &[u64]) -> Result<u64, Refusal>
    ensures { told result ≡ total_step book.now }
{
    check(book)?;
    Ok(sum_days(book))
}
