// A step whose caller has the row of heads by value: the row is lent to `depot::step` and taken back. Its promise is that of `depot_row::step_row`.
#![tactic(auto)]

ghost use Rattle.std.specs.Prelude.{◌≡◌};
ghost use Rattle.broken.specs.Lent.{lent};
ghost use Rattle.step.specs.Step.{world, seen, step_of};

use messages::{Event, Row};
use quorum::Configuration;
use record::Record;
use step::Step;

// A step of a depot's box, as `depot_row::step_row`: the record and the row of heads go in and come back, all else is lent. Total.
pub fn step(
    c: Configuration,
    r: Record,
    mut row: Row,
    log: &mut [u64],
    cached: &mut [u64],
    best: &mut [u64],
    store: &mut [u64],
    book: &mut [u64],
    e: Event,
    entries: &[u64],
) -> Step
    ensures { seen result (lent log.new cached.new best.new store.new book.new) ≡ step_of c e entries.now (world r row (lent log.old cached.old best.old store.old book.old)) }
{
    let x = depot::step(
        c,
        r,
        &mut row.heads,
        log,
        cached,
        best,
        store,
        book,
        e,
        entries,
    );
    Step {
        answer: x.answer,
        node: x.node,
        row,
    }
}
