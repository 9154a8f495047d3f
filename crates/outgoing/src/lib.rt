// The outgoing queue: a row of heads by value and a store of entries beside it. What a plan sends is done to it, and leaves it packed (mod.rs).
#![tactic(auto)]

ghost use Rattle.std.specs.Prelude.{◌≡◌, ◌++◌, map, ◌+◌, ◌-◌, ◌≤◌, ◌<◌, length, take, drop, set};
ghost use Rattle.base.specs.Lists.{over};
ghost use Rattle.base.specs.Limits.{max_messages, max_store};
ghost use Rattle.paxos_box.specs.Box.{is_new};
ghost use Rattle.storage.specs.Storage.{put_at};
ghost use Rattle.outgoing.specs.Queue.{lent, msg_of, entries_in, relaid};
ghost use Rattle.outgoing.specs.Perform.{sources, done_to, joined, on_place, entries_of, perform_all, performed, items_of, carried, Fits};
ghost use Rattle.outgoing.specs.Packing.{packed_from, restarted, end_of, join_end, joined_row, raised_row, row_of, Packed, Whole, Ready};

use base::MAX_STORE;
use messages::{Head, PaxosMsg, Row};
use paxos_box::{Join, Raise, Send, Sends, Sent, Source};
use storage::{first, part, write_suffix};

// Whether the entries of each head follow those of the one before it, from place 0.
fn is_packed(row: &Row, len: usize) -> bool
    requires len_le_max_messages { len ≤ max_messages }
    requires heads_bound { carried (take len row.now.heads) ≤ max_store }
    ensures { result ≡ packed_from 0 (take len row.now.heads) }
{
    let mut at = 0;
    for h in &row.heads[..len] {
        if h.start != at {
            return false;
        }
        at += h.count;
    }
    true
}

// The heads from one position up to another start where packing puts them, the first of them at a place.
fn restart(row: &mut Row, from: usize, to: usize, at: usize)
    requires places { length row.old.heads ≡ max_messages }
    requires to_le_max_messages { to ≤ max_messages }
    requires from_le_to { from ≤ to }
    requires heads_bound { at + carried (take (to - from) (drop from row.old.heads)) ≤ max_store }
    ensures { row.new ≡ row_of (restarted from to at row.old.heads) }
{
    let mut place = at;
    for i in from..to {
        row.heads[i].start = place;
        place += row.heads[i].count;
    }
}

// Where the entries of the first k heads end, in a packed row.
fn end_of(row: &Row, k: usize) -> usize
    requires k_le_max_messages { k ≤ max_messages }
    requires heads_bound { end_of k row.now.heads ≤ max_store }
    ensures { result ≡ end_of k row.now.heads }
{
    if k == 0 {
        return 0;
    }
    let last = row.heads[k - 1];
    last.start + last.count
}

// The entries of the first heads, one after the other, over the start of another list.
#[tactic(auto, unfolding(storage::specs::Storage::put_at))]
fn gather(out: &mut [u64], store: &[u64], row: &Row, len: usize)
    requires len_le_max_messages { len ≤ max_messages }
    requires heads_in_bounds { carried (take len row.now.heads) ≤ length out.old }
    requires out_len_bound { length out.old ≤ max_store }
    requires whole { Whole store.now (take len row.now.heads) }
    ensures { out.new ≡ over (entries_in (map (msg_of store.now) (take len row.now.heads))) out.old }
{
    let mut at = 0;
    for h in &row.heads[..len] {
        write_suffix(&mut out[at..], part(store, h.start, h.count));
        at += h.count;
    }
}

// The queue packed. In the usual case it is, and nothing moves.
fn pack(row: &mut Row, store: &mut [u64], len: usize)
    requires places { length row.old.heads ≡ max_messages }
    requires len_le_max_messages { len ≤ max_messages }
    requires store_len { length store.old ≡ max_store }
    requires heads_bound { carried (take len row.old.heads) ≤ max_store }
    requires whole { Whole store.old (take len row.old.heads) }
    ensures { lent row.new store.new ≡ relaid len (λ q. q) (lent row.old store.old) }
{
    if is_packed(row, len) {
        return;
    }
    let mut entries = [0u64; MAX_STORE];
    gather(&mut entries, store, row, len);
    restart(row, 0, len, 0);
    let used = end_of(row, len);
    write_suffix(store, first(&entries, used));
}

// The cells from one place up to another move up.
fn move_up(store: &mut [u64], from: usize, to: usize, by: usize)
    requires from_le_to { from ≤ to }
    requires by_in_bounds { to + by ≤ length store.old }
    ensures { store.new ≡ put_at (from + by) (take (to - from) (drop from store.old)) store.old }
{
    for i in (from..to).rev() {
        store[i + by] = store[i];
    }
}

// Entries put in at a place; what lies between it and the end of the used cells moves up.
fn insert(store: &mut [u64], at: usize, used: usize, entries: &[u64])
    requires at_le_used { at ≤ used }
    requires entries_in_bounds { used + length entries.now ≤ length store.old }
    ensures { store.new ≡ put_at at (entries.now ++ take (used - at) (drop at store.old)) store.old }
{
    let by = entries.len();
    move_up(store, at, used, by);
    write_suffix(&mut store[at..], entries);
}

// A new message: its entries behind the last used cell, its head behind the last one.
fn push(row: &mut Row, store: &mut [u64], len: usize, to: u64, msg: PaxosMsg, entries: &[u64])
    requires packed { Packed len row.old.heads store.old }
    requires len_lt_max_messages { len < max_messages }
    requires store_len_bound { length store.old ≤ max_store }
    requires entries_in_bounds { carried (take len row.old.heads) + length entries.now ≤ length store.old }
    ensures { lent row.new store.new ≡ relaid len (done_to (Sent.New msg) to entries.now) (lent row.old store.old) }
{
    let start = end_of(row, len);
    write_suffix(&mut store[start..], entries);
    row.heads[len] = Head {
        to,
        msg,
        start,
        count: entries.len(),
    };
}

// The head at a position gets the decided index and counts the entries that join; the heads behind it start later.
#[tactic(auto, unfolding(crate::specs::Packing::joined_row))]
fn join_head(row: &mut Row, len: usize, j: Join, n: usize)
    requires len_le_max_messages { len ≤ max_messages }
    requires at_lt_len { j.at < len }
    requires row_bound { join_end len j n row.old ≤ max_store }
    ensures { row.new ≡ joined_row len j n row.old }
{
    let h = row.heads[j.at];
    row.heads[j.at] = Head {
        msg: h.msg.with_decided(j.decided_idx),
        count: h.count + n,
        ..h
    };
    restart(row, j.at + 1, len, h.start + h.count + n);
}

// Entries join a message that waits, behind its own; what lies behind them in the store moves up.
fn join(row: &mut Row, store: &mut [u64], len: usize, j: Join, entries: &[u64])
    requires packed { Packed len row.old.heads store.old }
    requires len_le_max_messages { len ≤ max_messages }
    requires store_len_bound { length store.old ≤ max_store }
    requires entries_in_bounds { carried (take len row.old.heads) + length entries.now ≤ length store.old }
    ensures { lent row.new store.new ≡ relaid len (on_place j.at (joined j.decided_idx entries.now)) (lent row.old store.old) }
{
    if len <= j.at {
        return;
    }
    let end = end_of(row, j.at + 1);
    let used = end_of(row, len);
    insert(store, end, used, entries);
    join_head(row, len, j, entries.len());
}

// An Accepted that waits gets another index.
#[tactic(auto, unfolding(crate::specs::Packing::raised_row))]
fn raise(row: &mut Row, len: usize, r: Raise)
    requires { len ≤ max_messages }
    ensures { row.new ≡ raised_row len r row.old }
{
    if r.at < len {
        row.heads[r.at].msg = row.heads[r.at].msg.with_accepted(r.accepted_idx);
    }
}

// How long the queue is after one planned thing.
fn length_after(what: Sent, len: usize) -> usize
    requires { len ≤ max_messages }
    ensures { result ≡ len + is_new what }
{
    match what {
        Sent::New(_) => len + 1,
        _ => len,
    }
}

// One planned thing is done to a packed queue.
fn perform_one(row: &mut Row, store: &mut [u64], len: usize, m: Send, entries: &[u64])
    requires packed { Packed len row.old.heads store.old }
    requires what_bound { len + is_new m.what ≤ max_messages }
    requires store_len_bound { length store.old ≤ max_store }
    requires entries_in_bounds { carried (take len row.old.heads) + length entries.now ≤ length store.old }
    ensures { lent row.new store.new ≡ relaid len (done_to m.what m.to entries.now) (lent row.old store.old) }
{
    match m.what {
        Sent::New(msg) => push(row, store, len, m.to, msg, entries),
        Sent::Join(j) => join(row, store, len, j, entries),
        Sent::Raise(r) => raise(row, len, r),
    }
}

// Where the entries of what is sent come from.
#[derive(Clone, Copy)]
struct Sources<'a> {
    log: &'a [u64],
    given: &'a [u64],
    buffered: &'a [u64],
    cached: &'a [u64],
}

impl<'a> Sources<'a> {
    // The entries of a planned thing, or as many as its source has.
    fn entries_of(&self, m: Send) -> &'a [u64]
        ensures { result.now ≡ entries_of (sources self.now.log.now self.now.given.now self.now.buffered.now self.now.cached.now) m }
    {
        match m.source {
            Source::Nothing => &[],
            Source::Log(from) => part(self.log, from, m.count),
            Source::Given => first(self.given, m.count),
            Source::Buffered => first(self.buffered, m.count),
            Source::Cached => first(self.cached, m.count),
        }
    }
}

// All of them, in their order.
#[tactic(auto, unfolding(crate::specs::Perform::perform_all))]
fn perform_all(row: &mut Row, store: &mut [u64], len: usize, sends: Sends, from: &Sources)
    requires places { length row.old.heads ≡ max_messages }
    requires count_bound { sends.count ≤ 8 }
    requires ready { Ready len (items_of sends) row.old.heads store.old }
    ensures { lent row.new store.new ≡ relaid len (perform_all (sources from.now.log.now from.now.given.now from.now.buffered.now from.now.cached.now) (items_of sends)) (lent row.old store.old) }
{
    let mut n = len;
    for m in &sends.items[..sends.count] {
        perform_one(row, store, n, *m, from.entries_of(*m));
        n = length_after(m.what, n);
    }
}

// What a plan sends is done to the queue, of which the first `len` heads wait. The log and the cached buffer are as the step leaves them, the
// buffered proposals as found. The queue's new length is `len + sends.messages`.
#[tactic(auto, unfolding(crate::specs::Perform::performed))]
pub fn perform(
    mut row: Row,
    store: &mut [u64],
    len: usize,
    sends: Sends,
    log: &[u64],
    given: &[u64],
    buffered: [u64; 16],
    cached: &[u64],
) -> Row
    requires { Fits len sends row store.old }
    ensures { lent result store.new ≡ performed (sources log.now given.now buffered cached.now) sends len (lent row store.old) }
{
    if sends.count == 0 {
        return row;
    }
    pack(&mut row, store, len);
    let from = Sources {
        log,
        given,
        buffered: &buffered,
        cached,
    };
    perform_all(&mut row, store, len, sends, &from);
    row
}
