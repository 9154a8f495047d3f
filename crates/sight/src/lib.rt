// What deciding needs of the lists, in numbers: what stands at a remembered position of the queue, the first place of the log that a sync
// would change, and how many entries the queue carries.
#![tactic(auto)]

ghost use Rattle.std.specs.Prelude.{Bool, false, ◌&&◌, ltb, ◌≡◌, ◌≤◌, get_or};
ghost use Rattle.base.specs.Limits.{max_depots, max_messages, max_store};
ghost use Rattle.messages.specs.Messages.{no_head};
ghost use Rattle.messages.specs.declared.PaxosMsg.{PaxosMsg};
ghost use Rattle.sight.specs.Sight.{changes_at, first_change, held_change, sync_in, brought, brought_change, head_at, TellsMessage, accdec_on, accepted_on, accdec_marks, accepted_mark, queue_entries, sight_of};

use base::MAX_DEPOTS;
use leader_state::LogSync;
use messages::{Event, PaxosMsg, Row};
use paxos_box::{AcceptedAt, Sight};
use quorum::Configuration;
use record::Record;
use std::array::from_fn;

// What stands at a place, 0 past the end.
fn at(s: &[u64], i: usize) -> u64
    ensures { result ≡ get_or s.now i 0 }
{
    s.get(i).copied().unwrap_or(0)
}

// Whether putting the suffix from `start` on changes place i of the log.
#[tactic(auto, unfolding(crate::specs::Sight::changes_at))]
fn changes_at(log: &[u64], start: usize, suffix: &[u64], i: usize) -> bool
    ensures { result ≡ changes_at log.now start suffix.now i }
{
    start <= i && i - start < suffix.len() && at(log, i) != suffix[i - start]
}

// The first place below `len` that the suffix changes, `len` where it changes none.
// Kept, here and below: a log with its length beside it, since `first_change` is promised of any two, also where the log has fewer cells.
#[tactic(auto, unfolding(crate::specs::Sight::first_change))]
pub fn first_change(log: &[u64], len: usize, start: usize, suffix: &[u64]) -> usize
    ensures { result ≡ first_change log.now len start suffix.now }
{
    for i in 0..len {
        if changes_at(log, start, suffix, i) {
            return i;
        }
    }
    len
}

pub fn held_change(sync: Option<LogSync>, log: &[u64], len: usize, best: &[u64]) -> usize
    ensures { result ≡ held_change sync log.now len best.now }
{
    sync.map_or(len, |x| {
        first_change(log, len, x.sync_idx, storage::first(best, x.len))
    })
}

fn sync_in(m: PaxosMsg) -> Option<usize>
    ensures { result ≡ sync_in m }
{
    match m {
        PaxosMsg::Promise(p) => p.log_sync,
        PaxosMsg::AcceptSync(a) => Some(a.sync_idx),
        _ => None,
    }
}

// Whether an event brings a sync, and where it starts.
pub fn brought_sync(e: Event) -> Option<usize>
    ensures { result ≡ brought e }
{
    match e {
        Event::Message(m) => sync_in(m.msg),
        _ => None,
    }
}

pub fn brought_change(sync: Option<usize>, log: &[u64], len: usize, entries: &[u64]) -> usize
    ensures { result ≡ brought_change sync log.now len entries.now }
{
    sync.map_or(len, |start| first_change(log, len, start, entries))
}

// Whether a remembered position lies in the queue, and a message that passes the test stands there.
fn waits<F: Fn(PaxosMsg) -> bool>(row: &Row, len: usize, at: usize, test: F) -> bool
    requires { F.IsAlwaysCallable test }
    ensures { (f : PaxosMsg → Bool) → TellsMessage (F.post test) f → f no_head.msg ≡ false → result ≡ (ltb at len && f (head_at row.now at).msg) }
{
    at < len && row.heads.get(at).is_some_and(|h| test(h.msg))
}

#[tactic(auto, unfolding(crate::specs::Sight::accdec_at))]
fn accdec_on(row: &Row, len: usize, latest: Option<usize>) -> bool
    ensures { result ≡ accdec_on row.now len latest }
{
    match latest {
        None => false,
        Some(at) => waits(row, len, at, |m| m.is_accept_decide()),
    }
}

#[tactic(auto, unfolding(crate::specs::Sight::accepted_at))]
fn accepted_on(row: &Row, len: usize, meta: Option<AcceptedAt>) -> bool
    ensures { result ≡ accepted_on row.now len meta }
{
    match meta {
        None => false,
        Some(a) => waits(row, len, a.at, |m| m.is_accepted()),
    }
}

// A mark for each place: the AcceptDecide that is remembered of the depot there still waits.
pub fn accdec_marks(c: Configuration, r: &Record, row: &Row) -> [bool; MAX_DEPOTS as usize]
    requires { c.depots ≤ max_depots }
    ensures { result ≡ accdec_marks c r.now row.now }
{
    from_fn(|i| {
        (i as u64) < c.depots
            && accdec_on(
                row,
                r.outgoing,
                r.leader_state.get_latest_accept_meta(i as u64 + 1),
            )
    })
}

// Whether the remembered Accepted still waits.
pub fn accepted_mark(r: &Record, row: &Row) -> bool
    ensures { result ≡ accepted_mark r.now row.now }
{
    accepted_on(row, r.outgoing, r.latest_accepted_meta)
}

// How many entries the first `len` messages of the row carry: what a record that is not broken has fits the store.
#[tactic(auto, unfolding(hire_book::specs::Below::sum_below, crate::specs::Sight::queue_entries))]
pub fn queue_entries(row: Row, len: usize) -> usize
    requires len_le_max_messages { len ≤ max_messages }
    requires len_bound { queue_entries row len ≤ max_store }
    ensures { result ≡ queue_entries row len }
{
    let mut sum = 0;
    for h in &row.heads[..len] {
        sum += h.count;
    }
    sum
}

// All that deciding needs of the lists, of the record as it is found.
pub fn sight_of(
    c: Configuration,
    r: Record,
    row: Row,
    e: Event,
    log: &[u64],
    best: &[u64],
    entries: &[u64],
) -> Sight
    requires { c.depots ≤ max_depots }
    ensures { result ≡ sight_of c r row e log.now best.now entries.now }
{
    let len = r.internal_storage.accepted_idx;
    Sight {
        accdec: accdec_marks(c, &r, &row),
        accepted: accepted_mark(&r, &row),
        held_change: held_change(r.leader_state.max_promise.sync, log, len, best),
        brought_change: brought_change(brought_sync(e), log, len, entries),
    }
}
