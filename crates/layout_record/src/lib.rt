// A record as words, twelve blocks of sixteen, and the record that words mean (docs/LAYOUT.md).
#![tactic(auto)]

ghost use Rattle.std.specs.Prelude.{◌≡◌, map, length};
ghost use Rattle.base.specs.Limits.{max_buffered};
ghost use Rattle.storage.specs.Storage.{put_at};
ghost use Rattle.blocks.specs.Blocks.{joined};
ghost use Rattle.layout_record.specs.Words.{record_length, places_at, standing_words, lead_words, best_words, cached_words, place_words, record_words};
ghost use Rattle.layout_record.specs.Kept.{NarrowStanding, NarrowLead, NarrowBest, NarrowCached, NarrowPlace, PlacesKept};
ghost use Rattle.layout_record.specs.Reading.{place_in, best_in, cached_in, accepted_in, storage_in, state_in, places_in, leader_in, record_with, record_of, record_most, no_record, broken_record, record_in};

use ballot::Ballot;
use blocks::{Block, WORDS};
use leader_state::{Depot, LeaderState, LogSync, MaxPromise, PromiseMetaData, PromiseState};
use paxos_box::{AcceptedAt, CachedPromise, InternalStorage, Phase, Role, State};
use record::{Buffered, Record};
use sequence::SequenceNumber;
use std::array;

// Where the blocks lie.
const STANDING: usize = 0;

const BUFFERED: usize = 1;

const LEAD: usize = 2;

const BEST: usize = 3;

const CACHED: usize = 4;

const PLACES: usize = 5;

const DEPOTS: usize = base::MAX_DEPOTS as usize;

const BLOCKS: usize = PLACES + DEPOTS;

pub const RECORD: usize = BLOCKS * WORDS;

// What stands for no log sync.
const NO_SYNC: LogSync = LogSync {
    sync_idx: 0,
    len: 0,
};

// The blocks. Each tells too what a ballot's type says of it.

fn place_block(d: Depot) -> Block
    ensures value { result ≡ place_words d }
    ensures narrow_place { NarrowPlace d }
{
    let m = tags::promise_meta(d.promise);
    let n = blocks::ballot_words(m.n_accepted);
    [
        tags::promise_tag(d.promise),
        n[0],
        n[1],
        n[2],
        m.accepted_idx as u64,
        m.decided_idx as u64,
        m.pid,
        d.seq_num.session,
        d.seq_num.counter,
        d.accepted_idx as u64,
        tags::option_tag(d.latest),
        d.latest.unwrap_or(0) as u64,
        0,
        0,
        0,
        0,
    ]
}

fn best_block(best: MaxPromise) -> Block
    ensures value { result ≡ best_words best }
    ensures narrow_best { NarrowBest best }
{
    let m = best.meta;
    let n = blocks::ballot_words(m.n_accepted);
    let x = best.sync.unwrap_or(NO_SYNC);
    [
        n[0],
        n[1],
        n[2],
        m.accepted_idx as u64,
        m.decided_idx as u64,
        m.pid,
        tags::option_tag(best.sync),
        x.sync_idx as u64,
        x.len as u64,
        0,
        0,
        0,
        0,
        0,
        0,
        0,
    ]
}

fn cached_block(message: Option<CachedPromise>) -> Block
    ensures value { result ≡ cached_words message }
    ensures narrow_cached { NarrowCached message }
{
    let p = message.unwrap_or(CachedPromise {
        n: Ballot::default(),
        n_accepted: Ballot::default(),
        decided_idx: 0,
        accepted_idx: 0,
        sync: None,
    });
    let n = blocks::ballot_words(p.n);
    let accepted = blocks::ballot_words(p.n_accepted);
    let x = p.sync.unwrap_or(NO_SYNC);
    [
        tags::option_tag(message),
        n[0],
        n[1],
        n[2],
        accepted[0],
        accepted[1],
        accepted[2],
        p.decided_idx as u64,
        p.accepted_idx as u64,
        tags::option_tag(p.sync),
        x.sync_idx as u64,
        x.len as u64,
        0,
        0,
        0,
        0,
    ]
}

// The leader's ballot and the remembered Accepted.
fn lead_block(n_leader: Ballot, meta: Option<AcceptedAt>) -> Block
    ensures value { result ≡ lead_words n_leader meta }
    ensures narrow_lead { NarrowLead n_leader meta }
{
    let n = blocks::ballot_words(n_leader);
    let a = meta.unwrap_or(AcceptedAt {
        n: Ballot::default(),
        at: 0,
    });
    let accepted = blocks::ballot_words(a.n);
    [
        n[0],
        n[1],
        n[2],
        tags::option_tag(meta),
        accepted[0],
        accepted[1],
        accepted[2],
        a.at as u64,
        0,
        0,
        0,
        0,
        0,
        0,
        0,
        0,
    ]
}

// What the box promised and accepted, its role and phase, and the counts.
fn standing_block(
    s: InternalStorage,
    state: State,
    outgoing: usize,
    q: SequenceNumber,
    buffered: usize,
) -> Block
    ensures value { result ≡ standing_words s state outgoing q buffered }
    ensures narrow_standing { NarrowStanding s }
{
    let n = blocks::ballot_words(s.promise);
    let accepted = blocks::ballot_words(s.accepted_round);
    [
        n[0],
        n[1],
        n[2],
        accepted[0],
        accepted[1],
        accepted[2],
        s.decided_idx as u64,
        s.accepted_idx as u64,
        state.role as u64,
        state.phase as u64,
        outgoing as u64,
        q.session,
        q.counter,
        buffered as u64,
        0,
        0,
    ]
}

// The cells of the buffered proposals.
fn buffered_block(b: Buffered) -> Block
    ensures value { result ≡ b.entries }
    ensures entries_len { length b.entries ≡ max_buffered }
{
    b.entries
}

// What the blocks mean.

fn place_in(b: Block) -> Depot
    ensures { result ≡ place_in b }
{
    let m = PromiseMetaData {
        n_accepted: blocks::ballot(b[1], b[2], b[3]),
        accepted_idx: b[4] as usize,
        decided_idx: b[5] as usize,
        pid: b[6],
    };
    Depot {
        promise: tags::promise_of(b[0], m),
        seq_num: SequenceNumber {
            session: b[7],
            counter: b[8],
        },
        accepted_idx: b[9] as usize,
        latest: tags::option_of(b[10], b[11] as usize),
    }
}

fn best_in(b: Block) -> MaxPromise
    ensures { result ≡ best_in b }
{
    let x = LogSync {
        sync_idx: b[7] as usize,
        len: b[8] as usize,
    };
    MaxPromise {
        meta: PromiseMetaData {
            n_accepted: blocks::ballot(b[0], b[1], b[2]),
            accepted_idx: b[3] as usize,
            decided_idx: b[4] as usize,
            pid: b[5],
        },
        sync: tags::option_of(b[6], x),
    }
}

fn cached_in(b: Block) -> Option<CachedPromise>
    ensures { result ≡ cached_in b }
{
    let x = LogSync {
        sync_idx: b[10] as usize,
        len: b[11] as usize,
    };
    let p = CachedPromise {
        n: blocks::ballot(b[1], b[2], b[3]),
        n_accepted: blocks::ballot(b[4], b[5], b[6]),
        decided_idx: b[7] as usize,
        accepted_idx: b[8] as usize,
        sync: tags::option_of(b[9], x),
    };
    tags::option_of(b[0], p)
}

fn accepted_in(b: Block) -> Option<AcceptedAt>
    ensures { result ≡ accepted_in b }
{
    let a = AcceptedAt {
        n: blocks::ballot(b[4], b[5], b[6]),
        at: b[7] as usize,
    };
    tags::option_of(b[3], a)
}

fn storage_in(b: Block) -> InternalStorage
    ensures { result ≡ storage_in b }
{
    InternalStorage {
        promise: blocks::ballot(b[0], b[1], b[2]),
        accepted_round: blocks::ballot(b[3], b[4], b[5]),
        decided_idx: b[6] as usize,
        accepted_idx: b[7] as usize,
    }
}

fn state_in(b: Block) -> State
    ensures { result ≡ state_in b }
{
    State {
        role: tags::role_of(b[8]),
        phase: tags::phase_of(b[9]),
    }
}

// The seven places.
fn places_in(words: &[u64]) -> [Depot; DEPOTS]
    ensures { result ≡ places_in words.now }
{
    array::from_fn(|k| place_in(blocks::block(words, PLACES + k)))
}

#[tactic(auto, unfolding(crate::specs::Reading::leader_in))]
fn leader_in(words: &[u64]) -> LeaderState
    ensures { result ≡ leader_in words.now }
{
    let lead = blocks::block(words, LEAD);
    LeaderState {
        n_leader: blocks::ballot(lead[0], lead[1], lead[2]),
        depots: places_in(words),
        max_promise: best_in(blocks::block(words, BEST)),
    }
}

// A record of the first block, the buffered proposals' cells and the other parts.
#[tactic(auto, unfolding(crate::specs::Reading::record_with))]
fn record_with(
    b: Block,
    entries: Block,
    leader_state: LeaderState,
    latest_accepted_meta: Option<AcceptedAt>,
    cached_promise_message: Option<CachedPromise>,
) -> Record
    ensures { result ≡ record_with b entries leader_state latest_accepted_meta cached_promise_message }
{
    Record {
        internal_storage: storage_in(b),
        state: state_in(b),
        buffered_proposals: Buffered {
            entries,
            len: b[13] as usize,
        },
        outgoing: b[10] as usize,
        leader_state,
        latest_accepted_meta,
        current_seq_num: SequenceNumber {
            session: b[11],
            counter: b[12],
        },
        cached_promise_message,
    }
}

// The record of words that mean one.
#[tactic(auto, unfolding(crate::specs::Reading::record_of))]
fn record_of(words: &[u64]) -> Record
    ensures { result ≡ record_of words.now }
{
    record_with(
        blocks::block(words, STANDING),
        blocks::block(words, BUFFERED),
        leader_in(words),
        accepted_in(blocks::block(words, LEAD)),
        cached_in(blocks::block(words, CACHED)),
    )
}

// The most of each word of block i; 0 where it has none.
#[tactic(auto, unfolding(crate::specs::Reading::record_most))]
fn record_most(i: usize) -> Block
    ensures { result ≡ record_most i }
{
    let m = blocks::MOST_32;
    match i {
        STANDING => [m, m, 0, m, m, 0, 0, 0, 1, 3, 0, 0, 0, 0, 0, 0],
        BUFFERED => [0; WORDS],
        LEAD => [m, m, 0, 1, m, m, 0, 0, 0, 0, 0, 0, 0, 0, 0, 0],
        BEST => [m, m, 0, 0, 0, 0, 1, 0, 0, 0, 0, 0, 0, 0, 0, 0],
        CACHED => [1, m, m, 0, m, m, 0, 0, 0, 1, 0, 0, 0, 0, 0, 0],
        _ => [2, m, m, 0, 0, 0, 0, 0, 0, 0, 1, 0, 0, 0, 0, 0],
    }
}

// Whether the words mean no record: one of them is above its most.
fn no_record(words: &[u64]) -> bool
    ensures { result ≡ no_record words.now }
{
    (0..BLOCKS).any(|i| blocks::above_most(blocks::block(words, i), record_most(i)))
}

// A record whose decided index is above its log's length.
pub fn broken_record() -> Record
    ensures { result ≡ broken_record }
{
    Record {
        internal_storage: InternalStorage {
            promise: Ballot::default(),
            accepted_round: Ballot::default(),
            decided_idx: 1,
            accepted_idx: 0,
        },
        ..Record::fresh()
    }
}

// The record that words mean; words that mean none mean a broken one.
#[tactic(auto, unfolding(crate::specs::Reading::record_in))]
pub fn read_record(words: &[u64]) -> Record
    ensures { result ≡ record_in words.now }
{
    if no_record(words) {
        broken_record()
    } else {
        record_of(words)
    }
}

// The places into their blocks.
// Kept: beside `write_row`'s loop, its like: a helper of both would take a closure and promise what it gives of each element (`places_kept`), which is longer than two loops of a line.
fn put_places(words: &mut [u64], l: LeaderState)
    requires { length words.old ≡ record_length }
    ensures words_after { words.new ≡ put_at places_at (joined (map place_words l.depots)) words.old }
    ensures places_kept { PlacesKept l }
{
    for k in 0..DEPOTS {
        blocks::put_block(words, PLACES + k, place_block(l.depots[k]));
    }
}

// The record into its words, which then mean that record.
pub fn write_record(words: &mut [u64], r: Record)
    requires { length words.old ≡ record_length }
    ensures words_after { words.new ≡ record_words r }
    ensures words_after_2 { record_in words.new ≡ r }
{
    let standing = standing_block(
        r.internal_storage,
        r.state,
        r.outgoing,
        r.current_seq_num,
        r.buffered_proposals.len,
    );
    blocks::put_block(words, STANDING, standing);
    blocks::put_block(words, BUFFERED, buffered_block(r.buffered_proposals));
    let l = r.leader_state;
    blocks::put_block(words, LEAD, lead_block(l.n_leader, r.latest_accepted_meta));
    blocks::put_block(words, BEST, best_block(l.max_promise));
    blocks::put_block(words, CACHED, cached_block(r.cached_promise_message));
    put_places(words, l);
}
