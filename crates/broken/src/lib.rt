// Refusal 2: the record is broken (document 01, "When a box says no").
#![tactic(auto)]

ghost use Rattle.std.specs.Prelude.{◌≡◌, ◌≤◌, length};
ghost use Rattle.base.specs.Limits.{max_depots, max_messages};
ghost use Rattle.hire_book.specs.Book.{book_length};
ghost use Rattle.broken.specs.Lent.{lent_of};
ghost use Rattle.broken.specs.Broken.{buffer_above, held_above, best_sync, cached_sync, kept_above, over_limit, meta_past, position_past, head_off, held_past, sync_past, leader_off, cached_foreign, meta_foreign, kept_foreign, message_default, state_broken, record_broken};

use base::{MAX_BUFFERED, MAX_LOG, MAX_MESSAGES};
use leader_state::LogSync;
use messages::Row;
use paxos_box::{AcceptedAt, CachedPromise};
use quorum::Configuration;
use record::Record;

// What a caller lends a step to be read beside record and row. The five travel together.
#[derive(Clone, Copy)]
pub struct Lists<'a> {
    pub log: &'a [u64],
    pub cached: &'a [u64],
    pub best: &'a [u64],
    pub store: &'a [u64],
    pub book: &'a [u64],
}

fn buffer_above(r: &Record) -> bool
    ensures { result ≡ buffer_above r.now }
{
    let b = &r.buffered_proposals;
    hire_book::any_above(storage::first(&b.entries, b.len))
}

fn held_above(sync: Option<LogSync>, buffer: &[u64]) -> bool
    ensures { result ≡ held_above sync buffer.now }
{
    sync.is_some_and(|x| hire_book::any_above(storage::first(buffer, x.len)))
}

fn cached_sync(r: &Record) -> Option<LogSync>
    ensures { result ≡ cached_sync r.now }
{
    r.cached_promise_message.and_then(|p| p.sync)
}

fn best_sync(r: &Record) -> Option<LogSync>
    ensures { result ≡ best_sync r.now }
{
    r.leader_state.max_promise.sync
}

// A kept entry above its limit. Cells past a length are not read.
#[tactic(auto, unfolding(crate::specs::Broken::kept_above))]
fn kept_above(r: &Record, row: &Row, lists: Lists) -> bool
    requires { r.now.outgoing ≤ max_messages }
    ensures { result ≡ kept_above r.now row.now lists.entry.log.now lists.entry.cached.now lists.entry.best.now lists.entry.store.now }
{
    hire_book::any_above(storage::first(lists.log, r.internal_storage.accepted_idx))
        || buffer_above(r)
        || held_above(cached_sync(r), lists.cached)
        || held_above(best_sync(r), lists.best)
        || heads::any_head_above(row, r.outgoing, lists.store)
}

#[tactic(auto, unfolding(crate::specs::Broken::over_limit))]
fn over_limit(r: &Record) -> bool
    ensures { result ≡ over_limit r.now }
{
    MAX_MESSAGES < r.outgoing || MAX_BUFFERED < r.buffered_proposals.len
}

fn meta_past(len: usize, m: Option<AcceptedAt>) -> bool
    ensures { result ≡ meta_past len m }
{
    m.is_some_and(|a| len <= a.at)
}

// A remembered position at or past the queue's end.
#[tactic(auto, unfolding(crate::specs::Broken::position_past))]
fn position_past(c: Configuration, r: &Record) -> bool
    requires { c.depots ≤ max_depots }
    ensures { result ≡ position_past c r.now }
{
    places::any_past(r.leader_state, c.depots, r.outgoing)
        || meta_past(r.outgoing, r.latest_accepted_meta)
}

// A head whose entries lie outside the store or overlap another's.
#[tactic(auto, unfolding(crate::specs::Broken::head_off))]
fn head_off(r: &Record, row: &Row) -> bool
    requires { r.now.outgoing ≤ max_messages }
    ensures { result ≡ head_off r.now row.now }
{
    heads::any_outside(row, r.outgoing) || heads::any_overlap(row, r.outgoing)
}

fn held_past(sync: Option<LogSync>) -> bool
    ensures { result ≡ held_past sync }
{
    sync.is_some_and(log_plan::ends_past)
}

// A held sync ending past the log's limit.
#[tactic(auto, unfolding(crate::specs::Broken::sync_past))]
fn sync_past(r: &Record) -> bool
    ensures { result ≡ sync_past r.now }
{
    held_past(best_sync(r)) || held_past(cached_sync(r))
}

// A Leader whose ballot's pid is not its own.
#[tactic(auto, unfolding(crate::specs::Broken::leader_off))]
fn leader_off(c: Configuration, r: &Record) -> bool
    ensures { result ≡ leader_off c r.now }
{
    r.state.role.is_leader() && r.leader_state.n_leader.pid != c.pid
}

fn cached_foreign(c: Configuration, m: Option<CachedPromise>) -> bool
    ensures { result ≡ cached_foreign c m }
{
    m.is_some_and(|p| unfit::either_foreign(c, p.n, p.n_accepted))
}

fn meta_foreign(c: Configuration, m: Option<AcceptedAt>) -> bool
    ensures { result ≡ meta_foreign c m }
{
    m.is_some_and(|a| unfit::foreign(c, a.n))
}

// A kept nonzero ballot whose pid is no depot.
#[tactic(auto, unfolding(crate::specs::Broken::kept_foreign))]
fn kept_foreign(c: Configuration, r: &Record, row: &Row) -> bool
    requires depots_le_max_depots { c.depots ≤ max_depots }
    requires outgoing_le_max_messages { r.now.outgoing ≤ max_messages }
    ensures { result ≡ kept_foreign c r.now row.now }
{
    let l = r.leader_state;
    unfit::either_foreign(
        c,
        r.internal_storage.promise,
        r.internal_storage.accepted_round,
    ) || unfit::either_foreign(c, l.n_leader, l.max_promise.meta.n_accepted)
        || places::any_foreign(l, c.depots, c)
        || cached_foreign(c, r.cached_promise_message)
        || meta_foreign(c, r.latest_accepted_meta)
        || heads::any_foreign(row, r.outgoing, c)
}

fn message_default(m: Option<CachedPromise>) -> bool
    ensures { result ≡ message_default m }
{
    m.is_some_and(|p| p.n.is_default())
}

// What record and row alone say.
#[tactic(auto, unfolding(crate::specs::Broken::state_broken))]
fn state_broken(c: Configuration, r: &Record, row: &Row) -> bool
    requires depots_le_max_depots { c.depots ≤ max_depots }
    requires outgoing_le_max_messages { r.now.outgoing ≤ max_messages }
    ensures { result ≡ state_broken c r.now row.now }
{
    position_past(c, r)
        || head_off(r, row)
        || places::any_misplaced(r.leader_state, c.depots)
        || sync_past(r)
        || leader_off(c, r)
        || kept_foreign(c, r, row)
        || message_default(r.cached_promise_message)
}

// Refusal 2. The queue's length is tested before its heads are read.
#[tactic(auto, unfolding(crate::specs::Broken::record_broken, crate::specs::Broken::over_limit))]
pub fn broken(c: Configuration, r: Record, row: Row, lists: Lists) -> bool
    requires depots_le_max_depots { c.depots ≤ max_depots }
    requires book_len { length lists.book.now ≡ book_length }
    ensures { result ≡ record_broken c r row (lent_of lists.entry) }
{
    r.internal_storage.accepted_idx < r.internal_storage.decided_idx
        || MAX_LOG < r.internal_storage.accepted_idx
        || over_limit(&r)
        || kept_above(&r, &row, lists)
        || state_broken(c, &r, &row)
        || hire_book::any_broken(lists.book)
}
