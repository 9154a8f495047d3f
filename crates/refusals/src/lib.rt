// Refusals 1, 2, 3 and the 4 that is given in every state, tested in this order (document 01, "When a box says no").
#![tactic(auto)]

ghost use Rattle.std.specs.Prelude.{◌≡◌, length};
ghost use Rattle.base.specs.Refusal.{answer_number};
ghost use Rattle.broken.specs.Lent.{lent_of};
ghost use Rattle.refusals.specs.Refusals.{lengths_off, call_off, refusal_of};

use base::{MAX_LOG, MAX_STORE, Refusal};
use broken::Lists;
use hire_book::BOOK;
use messages::{Event, Row};
use quorum::Configuration;
use record::Record;

#[tactic(auto, unfolding(crate::specs::Refusals::lengths_off))]
fn lengths_off(lists: Lists) -> bool
    ensures { result ≡ lengths_off (length lists.entry.log.now) (length lists.entry.cached.now) (length lists.entry.best.now) (length lists.entry.store.now) (length lists.entry.book.now) }
{
    lists.log.len() != MAX_LOG
        || lists.cached.len() != MAX_LOG
        || lists.best.len() != MAX_LOG
        || lists.store.len() != MAX_STORE
        || lists.book.len() != BOOK
}

// Refusal 1.
#[tactic(auto, unfolding(crate::specs::Refusals::wrong_call))]
fn wrong_call(c: Configuration, lists: Lists) -> bool
    ensures { result ≡ call_off c (lent_of lists.entry) }
{
    !c.stands() || lengths_off(lists)
}

// The first of the refusals that are tested before a step is decided.
#[tactic(auto, unfolding(crate::specs::Refusals::refusal_of))]
pub fn refusal(
    c: Configuration,
    r: Record,
    row: Row,
    lists: Lists,
    e: Event,
    entries: &[u64],
) -> Result<(), Refusal>
    ensures { answer_number result ≡ refusal_of c r row (lent_of lists.entry) e entries.now }
{
    if wrong_call(c, lists) {
        return Err(Refusal::WrongCall);
    }
    if broken::broken(c, r, row, lists) {
        return Err(Refusal::Broken);
    }
    if unfit::stranger(c, e) {
        return Err(Refusal::Stranger);
    }
    if unfit::unfit(c, e, entries) {
        return Err(Refusal::Unfit);
    }
    Ok(())
}
