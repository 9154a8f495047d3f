// One step of a depot's box: refuse, or decide in numbers, then write what was decided. Everything is lent; a refused step alters nothing.
#![tactic(auto)]

ghost use Rattle.std.specs.Prelude.{◌≡◌, false, ◌+◌, ◌≤◌, length, take};
ghost use Rattle.base.specs.Limits.{max_log, max_buffered, max_messages};
ghost use Rattle.hire_book.specs.Book.{book_length, Sound, any_above, apply_all, book_of};
ghost use Rattle.broken.specs.Lent.{lent, lent_of};
ghost use Rattle.depot_row.specs.Decided.{Decided};
ghost use Rattle.outcome.specs.Outcome.{as_decision};
ghost use Rattle.sequence_paxos.specs.Decide.{decide_of};
ghost use Rattle.sequence_paxos.specs.Fit as fit;
ghost use Rattle.step.specs.Step.{world, seen, box_of, waiting, handed_out, is_restart, newly_decided, book_after, taken_to, step_of};
ghost use Rattle.step.specs.Writable.{Writable};
ghost use Rattle.storage.specs.Storage.{end_after, log_after, cached_after, best_after, best_count, buffer_after, buffer_count};
ghost use Rattle.record.specs.Record.{store_of};

use base::Refusal;
use broken::Lists;
use messages::{Event, Row};
use paxos_box::SequencePaxos;
use quorum::Configuration;
use record::Record;
use step::{Answer, Step};

// What the step decides, once refusals 1, 2, 3 and the 4 of every state are past.
#[tactic(auto, unfolding(step::specs::Step::box_of))]
fn decide(
    c: Configuration,
    r: Record,
    row: Row,
    log: &[u64],
    best: &[u64],
    e: Event,
    entries: &[u64],
) -> Result<SequencePaxos, Refusal>
    requires sound { fit.Sound (box_of c e entries.now r row log.now best.now) }
    requires fit_event { fit.fit_event e (length entries.now) }
    ensures { as_decision (box_of c e entries.now r row log.now best.now) result ≡ decide_of e (length entries.now) (box_of c e entries.now r row log.now best.now) }
{
    let sight = sight::sight_of(c, r, row, e, log, best, entries);
    let carried = sight::queue_entries(row, r.outgoing);
    let s = r.load(c, carried, sight);
    sequence_paxos::decide(s, e, entries.len())
}

// How many messages wait: a drain hands them out, a restart leaves the queue empty.
fn waiting(e: Event, n: usize) -> usize
    ensures { result ≡ waiting e n }
{
    match e {
        Event::Drain | Event::Restart => 0,
        _ => n,
    }
}

fn handed_out(e: Event, n: usize) -> usize
    ensures { result ≡ handed_out e n }
{
    match e {
        Event::Drain => n,
        _ => 0,
    }
}

fn is_restart(e: Event) -> bool
    ensures { result ≡ is_restart e }
{
    matches!(e, Event::Restart)
}

// The book takes the entries newly decided, in order.
fn enter(book: &mut [u64], log: &[u64], old: usize, new: usize)
    requires sound { Sound book.old }
    requires log_value { any_above (newly_decided old new log.now) ≡ false }
    ensures { book.new ≡ apply_all (newly_decided old new log.now) book.old }
{
    hire_book::apply_run(book, storage::part(log, old, new.saturating_sub(old)));
}

// The book is made again from the decided entries.
fn make_again(book: &mut [u64], log: &[u64], decided: usize)
    requires book_len { length book.old ≡ book_length }
    requires log_value { any_above (take decided log.now) ≡ false }
    ensures { book.new ≡ book_of (take decided log.now) }
{
    // The length is the book's, so this is not refused.
    let _ = hire_book::fresh(book);
    hire_book::apply_run(book, storage::first(log, decided));
}

#[tactic(auto, unfolding(step::specs::Step::book_after))]
fn keep_book(book: &mut [u64], e: Event, log: &[u64], old: usize, new: usize)
    requires sound { Sound book.old }
    requires log_value { any_above (newly_decided old new log.now) ≡ false }
    requires log_value_2 { any_above (take new log.now) ≡ false }
    ensures { book.new ≡ book_after e old new log.now book.old }
{
    if is_restart(e) {
        make_again(book, log, new);
    } else {
        enter(book, log, old, new);
    }
}

// The log, the cached promise's buffer and the held sync's, as the plan has them.
fn write_lists(
    s: SequencePaxos,
    r: Record,
    log: &mut [u64],
    cached: &mut [u64],
    best: &mut [u64],
    entries: &[u64],
)
    requires log_len { length log.old ≡ max_log }
    requires cached_len { length cached.old ≡ max_log }
    requires best_len { length best.old ≡ max_log }
    requires buffered_bound { end_after s.plan.writes.log r.internal_storage.accepted_idx + s.plan.writes.buffered ≤ max_log }
    requires best_bound { best_count s.plan.writes.best ≤ max_log }
    ensures log_after { log.new ≡ log_after s.plan.writes.log r.internal_storage.accepted_idx entries.now best.old r.buffered_proposals.entries s.plan.writes.buffered log.old }
    ensures cached_after { cached.new ≡ cached_after s.plan.writes.cached (log_after s.plan.writes.log r.internal_storage.accepted_idx entries.now best.old r.buffered_proposals.entries s.plan.writes.buffered log.old) cached.old }
    ensures best_after { best.new ≡ best_after s.plan.writes.best entries.now best.old }
{
    let writes = s.plan.writes;
    storage::write_log(
        log,
        r.internal_storage.accepted_idx,
        writes.log,
        entries,
        best,
        r.buffered_proposals.entries,
        writes.buffered,
    );
    storage::write_cached(cached, log, writes.cached);
    storage::write_best(best, entries, writes.best);
}

// The record that the step hands back.
fn store_record(s: SequencePaxos, r: Record, e: Event, entries: &[u64]) -> Record
    requires buffer_bound { r.buffered_proposals.len + buffer_count s.plan.writes.buffer ≤ max_buffered }
    requires messages_bound { r.outgoing + s.plan.sends.messages ≤ max_messages }
    ensures { result ≡ store_of s (buffer_after s.plan.writes.buffer r.buffered_proposals.len entries.now r.buffered_proposals.entries) (waiting e (r.outgoing + s.plan.sends.messages)) }
{
    let found = r.buffered_proposals;
    let buffered = storage::write_buffer(found.entries, found.len, entries, s.plan.writes.buffer);
    Record::store(s, buffered, waiting(e, r.outgoing + s.plan.sends.messages))
}

// Everything that was decided is written.
#[tactic(auto, unfolding(step::specs::Step::log_of))]
fn perform(
    s: SequencePaxos,
    r: Record,
    row: Row,
    log: &mut [u64],
    cached: &mut [u64],
    best: &mut [u64],
    store: &mut [u64],
    book: &mut [u64],
    e: Event,
    entries: &[u64],
) -> Step
    requires { Writable entries.now s (world r row (lent log.old cached.old best.old store.old book.old)) }
    ensures { seen result (lent log.new cached.new best.new store.new book.new) ≡ taken_to e entries.now s (world r row (lent log.old cached.old best.old store.old book.old)) }
{
    write_lists(s, r, log, cached, best, entries);
    let waited = r.buffered_proposals.entries;
    let queue = outgoing::perform(
        row,
        store,
        r.outgoing,
        s.plan.sends,
        log,
        entries,
        waited,
        cached,
    );
    keep_book(
        book,
        e,
        log,
        r.internal_storage.decided_idx,
        s.internal_storage.decided_idx,
    );
    let answer = Answer {
        no: 0,
        dropped: s.plan.writes.dropped,
        handed_out: handed_out(e, r.outgoing),
    };
    Step {
        answer,
        node: store_record(s, r, e, entries),
        row: queue,
    }
}

// What the step decides, or why it is refused.
fn decided(
    c: Configuration,
    r: Record,
    row: Row,
    lists: Lists,
    e: Event,
    entries: &[u64],
) -> Result<SequencePaxos, Refusal>
    ensures { Decided c e entries.now (world r row (lent_of lists.entry)) result }
{
    refusals::refusal(c, r, row, lists, e, entries)?;
    decide(c, r, row, lists.log, lists.best, e, entries)
}

// A step of a depot's box. The record and the row of heads go in and come back; the log, the two sync buffers, the entry store and the book are lent; `entries` come
// with the event. Total: any record, row, lists, event and entries may be given, and the answer's number says which refusal, or 0.
pub fn step_row(
    c: Configuration,
    r: Record,
    row: Row,
    log: &mut [u64],
    cached: &mut [u64],
    best: &mut [u64],
    store: &mut [u64],
    book: &mut [u64],
    e: Event,
    entries: &[u64],
) -> Step
    ensures { seen result (lent log.new cached.new best.new store.new book.new) ≡ step_of c e entries.now (world r row (lent log.old cached.old best.old store.old book.old)) }
{
    let lists = Lists {
        log,
        cached,
        best,
        store,
        book,
    };
    match decided(c, r, row, lists, e, entries) {
        Ok(s) => perform(s, r, row, log, cached, best, store, book, e, entries),
        Err(refusal) => Step::refused(refusal, r, row),
    }
}
