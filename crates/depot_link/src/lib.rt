// The library to link from Rust or C: a fresh record, a step and a report, over slices of words (docs/LAYOUT.md, include/depots.h).
#![tactic(auto)]

ghost use Rattle.std.specs.Prelude.{◌≡◌, cond, eqb, length};
ghost use Rattle.broken.specs.Lent.{lent};
ghost use Rattle.step.specs.Step.{step_of, seen, world};
ghost use Rattle.layout_record.specs.Words.{record_length, record_words};
ghost use Rattle.layout_row.specs.Row.{row_length, row_words, row_in};
ghost use Rattle.depot_link.specs.Link.{held, told, linked, words_off, node_in, world_in, configuration_of, event_of, written_back, linked_step, Follows, fresh, fresh_in};
ghost use Rattle.depot_link.specs.Report.{reported, report_in};

use base::Refusal;
use messages::{Event, Row};
use quorum::Configuration;
use record::Record;
use step::{Answer, Step};

// Kept: the answers of `depots_fresh`, `depots_step`, `depots_step_lent` and `depots_report` are numbers, since C is given them (include/depots.h).

// The record of a box that never ran. 1 where the slice has not the length of a record.
#[tactic(auto, unfolding(crate::specs::Link::fresh_in))]
pub fn depots_fresh(record: &mut [u64]) -> u32
    ensures { fresh result «record».new ≡ fresh_in «record».old }
{
    if record.len() != layout_record::RECORD {
        return Refusal::WrongCall.into();
    }
    layout_record::write_record(record, Record::fresh());
    0
}

// Whether words are of the wrong length.
#[tactic(auto, unfolding(crate::specs::Link::words_off))]
fn words_off(configuration: usize, node: usize, row: usize, event: usize) -> bool
    ensures { result ≡ words_off configuration node row event }
{
    configuration != blocks::WORDS
        || node != layout_record::RECORD
        || row != layout_row::ROW
        || event != blocks::WORDS
}

#[tactic(auto, unfolding(crate::specs::Link::node_in))]
fn node_in(node: &[u64], row: &[u64]) -> Record
    ensures { result ≡ node_in node.now row.now }
{
    if layout_row::no_row(row) {
        return layout_record::broken_record();
    }
    layout_record::read_record(node)
}

fn configuration_of(words: &[u64]) -> Configuration
    ensures { result ≡ configuration_of words.now }
{
    layout_row::configuration_in(blocks::block(words, 0))
}

fn event_of(words: &[u64]) -> Event
    ensures { result ≡ event_of words.now }
{
    layout_row::event_in(blocks::block(words, 0))
}

// What a taken step leaves of the record and the row goes back into their words, which then mean it.
#[tactic(auto, unfolding(crate::specs::Link::node_in))]
fn write_back(node: &mut [u64], row: &mut [u64], x: Step)
    requires node_len { length node.old ≡ record_length }
    requires row_len { length row.old ≡ row_length }
    ensures node_after { node.new ≡ cond (eqb x.answer.no 0) (record_words x.node) node.old }
    ensures row_after { row.new ≡ cond (eqb x.answer.no 0) (row_words x.row) row.old }
    ensures row_after_2 { node_in node.new row.new ≡ cond (eqb x.answer.no 0) x.node (node_in node.old row.old) }
    ensures row_after_3 { row_in row.new ≡ cond (eqb x.answer.no 0) x.row (row_in row.old) }
{
    if x.answer.no == 0 {
        layout_record::write_record(node, x.node);
        layout_row::write_row(row, x.row);
    }
}

// A way to take the whole step.
trait Way {
    fn step(
        c: Configuration,
        r: Record,
        row: Row,
        log: &mut [u64],
        cached: &mut [u64],
        best: &mut [u64],
        store: &mut [u64],
        book: &mut [u64],
        e: Event,
        entries: &[u64],
    ) -> Step
        ensures { seen result (lent log.new cached.new best.new store.new book.new) ≡ step_of c e entries.now (world r row (lent log.old cached.old best.old store.old book.old)) };
}

// With the row of heads by value.
struct ByValue;

impl Way for ByValue {
    fn step(
        c: Configuration,
        r: Record,
        row: Row,
        log: &mut [u64],
        cached: &mut [u64],
        best: &mut [u64],
        store: &mut [u64],
        book: &mut [u64],
        e: Event,
        entries: &[u64],
    ) -> Step {
        depot_row::step_row(c, r, row, log, cached, best, store, book, e, entries)
    }
}

// With the row of heads lent to `depot::step` on the way.
struct Lending;

impl Way for Lending {
    fn step(
        c: Configuration,
        r: Record,
        row: Row,
        log: &mut [u64],
        cached: &mut [u64],
        best: &mut [u64],
        store: &mut [u64],
        book: &mut [u64],
        e: Event,
        entries: &[u64],
    ) -> Step {
        own_row::step(c, r, row, log, cached, best, store, book, e, entries)
    }
}

// The step over a record and a row of the right length.
fn step_words<W: Way>(
    c: Configuration,
    e: Event,
    node: &mut [u64],
    row: &mut [u64],
    log: &mut [u64],
    cached: &mut [u64],
    best: &mut [u64],
    store: &mut [u64],
    book: &mut [u64],
    entries: &[u64],
) -> Answer
    requires node_len { length node.old ≡ record_length }
    requires row_len { length row.old ≡ row_length }
    ensures book_after { told result (held node.new row.new (lent log.new cached.new best.new store.new book.new)) ≡ written_back (step_of c e entries.now (world_in (held node.old row.old (lent log.old cached.old best.old store.old book.old)))) (held node.old row.old (lent log.old cached.old best.old store.old book.old)) }
    ensures book_after_2 { world_in (held node.new row.new (lent log.new cached.new best.new store.new book.new)) ≡ (step_of c e entries.now (world_in (held node.old row.old (lent log.old cached.old best.old store.old book.old)))).after }
{
    let r = node_in(node, row);
    let heads = layout_row::read_row(row);
    let x = W::step(c, r, heads, log, cached, best, store, book, e, entries);
    write_back(node, row, x);
    x.answer
}

// The step over slices of any length.
fn linked_step<W: Way>(
    configuration: &[u64],
    record: &mut [u64],
    row: &mut [u64],
    log: &mut [u64],
    cached: &mut [u64],
    best: &mut [u64],
    store: &mut [u64],
    book: &mut [u64],
    event: &[u64],
    entries: &[u64],
    dropped: &mut u64,
    handed_out: &mut u64,
) -> u32
    ensures book_after { linked result dropped.new handed_out.new (held «record».new row.new (lent log.new cached.new best.new store.new book.new)) ≡ linked_step configuration.now event.now entries.now (held «record».old row.old (lent log.old cached.old best.old store.old book.old)) }
    ensures follows { Follows configuration.now event.now entries.now (held «record».old row.old (lent log.old cached.old best.old store.old book.old)) (held «record».new row.new (lent log.new cached.new best.new store.new book.new)) }
{
    *dropped = 0;
    *handed_out = 0;
    if words_off(configuration.len(), record.len(), row.len(), event.len()) {
        return Refusal::WrongCall.into();
    }
    let c = configuration_of(configuration);
    let e = event_of(event);
    let a = step_words::<W>(c, e, record, row, log, cached, best, store, book, entries);
    *dropped = a.dropped as u64;
    *handed_out = a.handed_out as u64;
    a.no
}

// One step. The answer is document 01's number; how many buffered entries were dropped, and how many messages a drain handed out, go to
// `dropped` and `handed_out`. Any slices may be given: where it is refused, all but these two is as found.
pub fn depots_step(
    configuration: &[u64],
    record: &mut [u64],
    row: &mut [u64],
    log: &mut [u64],
    cached: &mut [u64],
    best: &mut [u64],
    store: &mut [u64],
    book: &mut [u64],
    event: &[u64],
    entries: &[u64],
    dropped: &mut u64,
    handed_out: &mut u64,
) -> u32
    ensures book_after { linked result dropped.new handed_out.new (held «record».new row.new (lent log.new cached.new best.new store.new book.new)) ≡ linked_step configuration.now event.now entries.now (held «record».old row.old (lent log.old cached.old best.old store.old book.old)) }
    ensures follows { Follows configuration.now event.now entries.now (held «record».old row.old (lent log.old cached.old best.old store.old book.old)) (held «record».new row.new (lent log.new cached.new best.new store.new book.new)) }
{
    linked_step::<ByValue>(
        configuration,
        record,
        row,
        log,
        cached,
        best,
        store,
        book,
        event,
        entries,
        dropped,
        handed_out,
    )
}

// Kept beside depots_step: C links both names, and each exported function states its promise itself.
// The same step with its row of heads lent to `depot::step` on the way, as a caller in Rattle lends it: for the replay and the benchmark.
pub fn depots_step_lent(
    configuration: &[u64],
    record: &mut [u64],
    row: &mut [u64],
    log: &mut [u64],
    cached: &mut [u64],
    best: &mut [u64],
    store: &mut [u64],
    book: &mut [u64],
    event: &[u64],
    entries: &[u64],
    dropped: &mut u64,
    handed_out: &mut u64,
) -> u32
    ensures book_after { linked result dropped.new handed_out.new (held «record».new row.new (lent log.new cached.new best.new store.new book.new)) ≡ linked_step configuration.now event.now entries.now (held «record».old row.old (lent log.old cached.old best.old store.old book.old)) }
    ensures follows { Follows configuration.now event.now entries.now (held «record».old row.old (lent log.old cached.old best.old store.old book.old)) (held «record».new row.new (lent log.new cached.new best.new store.new book.new)) }
{
    linked_step::<Lending>(
        configuration,
        record,
        row,
        log,
        cached,
        best,
        store,
        book,
        event,
        entries,
        dropped,
        handed_out,
    )
}

// The report of a book, as text at the start of `out`, whose further bytes stay; `count` is how many bytes it has, 0 where it is refused.
#[tactic(auto, unfolding(crate::specs::Report::report_in))]
pub fn depots_report(book: &[u64], out: &mut [u8], count: &mut u64) -> u32
    ensures { reported result count.new out.new ≡ report_in book.now out.old }
{
    *count = 0;
    if book.len() != hire_book::BOOK || out.len() < page::REPORT_BYTES {
        return Refusal::WrongCall.into();
    }
    if hire_book::any_broken(book) {
        return Refusal::Broken.into();
    }
    let n = page::put_page(out, book);
    *count = n as u64;
    0
}
