// The step of a depot's box with everything lent: the queue as a row of message heads, and the lists beside it. Thin over `depot_row::step_row`, which takes the row by value.
#![tactic(auto)]

ghost use Rattle.std.specs.Prelude.{◌≡◌};
ghost use Rattle.broken.specs.Lent.{lent};
ghost use Rattle.outgoing.specs.Packing.{row_of};
ghost use Rattle.step.specs.Step.{world, seen};
ghost use Rattle.depot.specs.Heads.{step_sized, step_heads, seen_heads};

use base::{MAX_MESSAGES, Refusal};
use messages::{Event, Head, Row};
use quorum::Configuration;
use record::Record;
use step::{Answer, Step};

// What a step hands back: the answer and the record. All else is lent.
#[derive(Clone, Copy)]
pub struct Stepped {
    pub answer: Answer,
    pub node: Record,
}

// The step on the row by value, where the lent row is n heads long: another length than 64 gets 1, and everything is as found.
#[tactic(auto, unfolding(crate::specs::Heads::step_sized))]
fn step_sized(
    c: Configuration,
    r: Record,
    row: Row,
    n: usize,
    log: &mut [u64],
    cached: &mut [u64],
    best: &mut [u64],
    store: &mut [u64],
    book: &mut [u64],
    e: Event,
    entries: &[u64],
) -> Step
    ensures { seen result (lent log.new cached.new best.new store.new book.new) ≡ step_sized n c e entries.now (world r row (lent log.old cached.old best.old store.old book.old)) }
{
    if n != MAX_MESSAGES {
        return Step::refused(Refusal::WrongCall, r, row);
    }
    depot_row::step_row(c, r, row, log, cached, best, store, book, e, entries)
}

// A step of a depot's box. The record goes in and comes back; the row of heads, the log, the two sync buffers, the entry store and the book are lent; `entries` come
// with the event. Total: any record, row, lists, event and entries may be given, and the answer's number says which refusal, or 0.
pub fn step(
    c: Configuration,
    r: Record,
    heads: &mut [Head],
    log: &mut [u64],
    cached: &mut [u64],
    best: &mut [u64],
    store: &mut [u64],
    book: &mut [u64],
    e: Event,
    entries: &[u64],
) -> Stepped
    ensures { seen_heads result heads.new (lent log.new cached.new best.new store.new book.new) ≡ step_heads c e entries.now (world r (row_of heads.old) (lent log.old cached.old best.old store.old book.old)) }
{
    let row = lent_heads::snapshot(heads);
    let n = heads.len();
    let s = step_sized(c, r, row, n, log, cached, best, store, book, e, entries);
    lent_heads::apply(heads, s.row);
    Stepped {
        answer: s.answer,
        node: s.node,
    }
}
