// Heads, the row of them, events and configurations as words, and what words mean of these (docs/LAYOUT.md).
#![tactic(auto)]

ghost use Rattle.std.specs.Prelude.{◌≡◌, false, length};
ghost use Rattle.ballot.specs.Ballot.{default};
ghost use Rattle.sequence.specs.Sequence.{first};
ghost use Rattle.layout_row.specs.Fields.{fields_as, promise_fields, fields_of, promise_of, message_of, fields_in};
ghost use Rattle.layout_row.specs.Row.{row_length, head_words, row_words, NarrowHead, head_in, head_most, no_row, row_in};
ghost use Rattle.layout_row.specs.Event.{event_most, unfit_from, event_of, event_in, quorum_of, configuration_in};

use ballot::Ballot;
use base::MAX_MESSAGES;
use blocks::{Block, WORDS};
use messages::{
    AcceptDecide, AcceptSync, Accepted, Decide, Event, Head, NotAccepted, PaxosMessage, PaxosMsg,
    Prepare, PrepareReq, Promise, Row,
};
use quorum::{Configuration, FlexibleQuorum, Quorum};
use sequence::SequenceNumber;
use std::array;

pub const ROW: usize = MAX_MESSAGES * WORDS;

// The kinds of messages and of events, and the quorums' tags.
// Kept: numbers, since they are words that C reads and writes (docs/LAYOUT.md); outside these words kinds are variants.
const PREPARE_REQ: u64 = 0;

const PREPARE: u64 = 1;

const PROMISE: u64 = 2;

const ACCEPT_SYNC: u64 = 3;

const ACCEPT_DECIDE: u64 = 4;

const ACCEPTED: u64 = 5;

const NOT_ACCEPTED: u64 = 6;

const DECIDE: u64 = 7;

const PROPOSAL_FORWARD: u64 = 8;

const MESSAGE: u64 = 0;

const PROPOSE: u64 = 1;

const LEADER: u64 = 2;

const RECONNECT: u64 = 3;

const RESEND: u64 = 4;

const DRAIN: u64 = 5;

const RESTART: u64 = 6;

const MAJORITY: u64 = 0;

const FLEXIBLE: u64 = 1;

// A message as its kind and every field that some kind has; a field that the kind has not is 0.
// Kept: a kind and a flag in numbers, as C's words have them: `message_of` reads every number, also one above the most.
#[derive(Clone, Copy)]
pub struct Fields {
    pub kind: u64,
    pub n: Ballot,
    pub n_accepted: Ballot,
    pub seq_num: SequenceNumber,
    pub decided_idx: usize,
    pub accepted_idx: usize,
    pub with_sync: u64,
    pub sync_idx: usize,
}

// The fields of a message that has none but its ballot.
fn fields_as(kind: u64, n: Ballot) -> Fields
    ensures { result ≡ fields_as kind n default first 0 0 0 0 }
{
    Fields {
        kind,
        n,
        n_accepted: Ballot::default(),
        seq_num: SequenceNumber::default(),
        decided_idx: 0,
        accepted_idx: 0,
        with_sync: 0,
        sync_idx: 0,
    }
}

fn promise_fields(m: Promise) -> Fields
    ensures { result ≡ promise_fields m }
{
    Fields {
        n_accepted: m.n_accepted,
        decided_idx: m.decided_idx,
        accepted_idx: m.accepted_idx,
        with_sync: tags::option_tag(m.log_sync),
        sync_idx: m.log_sync.unwrap_or(0),
        ..fields_as(PROMISE, m.n)
    }
}

fn fields_of(m: PaxosMsg) -> Fields
    ensures { result ≡ fields_of m }
{
    match m {
        PaxosMsg::PrepareReq(x) => fields_as(PREPARE_REQ, x.n),
        PaxosMsg::Prepare(x) => Fields {
            n_accepted: x.n_accepted,
            decided_idx: x.decided_idx,
            accepted_idx: x.accepted_idx,
            ..fields_as(PREPARE, x.n)
        },
        PaxosMsg::Promise(x) => promise_fields(x),
        PaxosMsg::AcceptSync(x) => Fields {
            seq_num: x.seq_num,
            decided_idx: x.decided_idx,
            sync_idx: x.sync_idx,
            ..fields_as(ACCEPT_SYNC, x.n)
        },
        PaxosMsg::AcceptDecide(x) => Fields {
            seq_num: x.seq_num,
            decided_idx: x.decided_idx,
            ..fields_as(ACCEPT_DECIDE, x.n)
        },
        PaxosMsg::Accepted(x) => Fields {
            accepted_idx: x.accepted_idx,
            ..fields_as(ACCEPTED, x.n)
        },
        PaxosMsg::NotAccepted(x) => fields_as(NOT_ACCEPTED, x.n),
        PaxosMsg::Decide(x) => Fields {
            seq_num: x.seq_num,
            decided_idx: x.decided_idx,
            ..fields_as(DECIDE, x.n)
        },
        PaxosMsg::ProposalForward => fields_as(PROPOSAL_FORWARD, Ballot::default()),
    }
}

fn promise_of(f: Fields) -> Promise
    ensures { result ≡ promise_of f }
{
    Promise {
        n: f.n,
        n_accepted: f.n_accepted,
        decided_idx: f.decided_idx,
        accepted_idx: f.accepted_idx,
        log_sync: tags::option_of(f.with_sync, f.sync_idx),
    }
}

// The message that fields mean. A kind above its most, which no block that means something has, is read as the last.
#[tactic(auto, unfolding(crate::specs::Fields::message_of))]
fn message_of(f: Fields) -> PaxosMsg
    ensures { result ≡ message_of f }
{
    match f.kind {
        PREPARE_REQ => PaxosMsg::PrepareReq(PrepareReq { n: f.n }),
        PREPARE => PaxosMsg::Prepare(Prepare {
            n: f.n,
            decided_idx: f.decided_idx,
            n_accepted: f.n_accepted,
            accepted_idx: f.accepted_idx,
        }),
        PROMISE => PaxosMsg::Promise(promise_of(f)),
        ACCEPT_SYNC => PaxosMsg::AcceptSync(AcceptSync {
            n: f.n,
            seq_num: f.seq_num,
            decided_idx: f.decided_idx,
            sync_idx: f.sync_idx,
        }),
        ACCEPT_DECIDE => PaxosMsg::AcceptDecide(AcceptDecide {
            n: f.n,
            seq_num: f.seq_num,
            decided_idx: f.decided_idx,
        }),
        ACCEPTED => PaxosMsg::Accepted(Accepted {
            n: f.n,
            accepted_idx: f.accepted_idx,
        }),
        NOT_ACCEPTED => PaxosMsg::NotAccepted(NotAccepted { n: f.n }),
        DECIDE => PaxosMsg::Decide(Decide {
            n: f.n,
            seq_num: f.seq_num,
            decided_idx: f.decided_idx,
        }),
        _ => PaxosMsg::ProposalForward,
    }
}

// The fields in words 1 to 13 of a block.
fn fields_in(b: Block) -> Fields
    ensures { result ≡ fields_in b }
{
    Fields {
        kind: b[1],
        n: blocks::ballot(b[2], b[3], b[4]),
        n_accepted: blocks::ballot(b[5], b[6], b[7]),
        seq_num: SequenceNumber {
            session: b[8],
            counter: b[9],
        },
        decided_idx: b[10] as usize,
        accepted_idx: b[11] as usize,
        with_sync: b[12],
        sync_idx: b[13] as usize,
    }
}

// A head's block. It tells too what a ballot's type says of it.
fn head_block(h: Head) -> Block
    ensures value { result ≡ head_words h }
    ensures narrow_head { NarrowHead h }
{
    let f = fields_of(h.msg);
    let n = blocks::ballot_words(f.n);
    let accepted = blocks::ballot_words(f.n_accepted);
    [
        h.to,
        f.kind,
        n[0],
        n[1],
        n[2],
        accepted[0],
        accepted[1],
        accepted[2],
        f.seq_num.session,
        f.seq_num.counter,
        f.decided_idx as u64,
        f.accepted_idx as u64,
        f.with_sync,
        f.sync_idx as u64,
        h.start as u64,
        h.count as u64,
    ]
}

fn head_in(b: Block) -> Head
    ensures { result ≡ head_in b }
{
    Head {
        to: b[0],
        msg: message_of(fields_in(b)),
        start: b[14] as usize,
        count: b[15] as usize,
    }
}

// The most of each word of a head; 0 where it has none.
fn head_most() -> Block
    ensures { result ≡ head_most }
{
    let m = blocks::MOST_32;
    [
        0,
        PROPOSAL_FORWARD,
        m,
        m,
        0,
        m,
        m,
        0,
        0,
        0,
        0,
        0,
        1,
        0,
        0,
        0,
    ]
}

// Whether the words mean no row: some block of them means no head.
pub fn no_row(words: &[u64]) -> bool
    ensures { result ≡ no_row words.now }
{
    (0..MAX_MESSAGES).any(|i| blocks::above_most(blocks::block(words, i), head_most()))
}

// The row of words that mean one.
#[tactic(auto, unfolding(crate::specs::Row::row_in))]
pub fn read_row(words: &[u64]) -> Row
    ensures { result ≡ row_in words.now }
{
    Row {
        heads: array::from_fn(|i| head_in(blocks::block(words, i))),
    }
}

// The row into its words, which then mean that row.
pub fn write_row(words: &mut [u64], row: Row)
    requires { length words.old ≡ row_length }
    ensures words_after { words.new ≡ row_words row }
    ensures words_after_2 { row_in words.new ≡ row }
    ensures words_after_3 { no_row words.new ≡ false }
{
    for i in 0..MAX_MESSAGES {
        blocks::put_block(words, i, head_block(row.heads[i]));
    }
}

// A message of that depot that is unfit in every state.
fn unfit_from(from: u64) -> Event
    ensures { result ≡ unfit_from from }
{
    Event::Message(PaxosMessage {
        from,
        msg: PaxosMsg::NotAccepted(NotAccepted {
            n: Ballot::default(),
        }),
    })
}

// What happens, by its kind: from or to whom, and the message's fields.
#[tactic(auto, unfolding(crate::specs::Event::event_of))]
fn event_of(kind: u64, pid: u64, f: Fields) -> Event
    ensures { result ≡ event_of kind pid f }
{
    match kind {
        MESSAGE => Event::Message(PaxosMessage {
            from: pid,
            msg: message_of(f),
        }),
        PROPOSE => Event::Propose,
        LEADER => Event::Leader(f.n),
        RECONNECT => Event::Reconnect(pid),
        RESEND => Event::Resend,
        DRAIN => Event::Drain,
        _ => Event::Restart,
    }
}

// As a head's, and word 14 is the event's kind.
fn event_most() -> Block
    ensures { result ≡ event_most }
{
    let mut most = head_most();
    most[14] = RESTART;
    most
}

// The event of a block. A block that means none is an unfit message from the depot in word 0.
#[tactic(auto, unfolding(crate::specs::Event::event_in))]
pub fn event_in(b: Block) -> Event
    ensures { result ≡ event_in b }
{
    if blocks::above_most(b, event_most()) {
        unfit_from(b[0])
    } else {
        event_of(b[14], b[0], fields_in(b))
    }
}

fn quorum_of(tag: u64, read: u64, write: u64) -> Quorum
    ensures { result ≡ quorum_of tag read write }
{
    match tag {
        MAJORITY => Quorum::Majority(read),
        FLEXIBLE => Quorum::Flexible(FlexibleQuorum {
            read_quorum_size: read,
            write_quorum_size: write,
        }),
        _ => Quorum::Majority(0),
    }
}

#[tactic(auto, unfolding(crate::specs::Event::configuration_in))]
pub fn configuration_in(b: Block) -> Configuration
    ensures { result ≡ configuration_in b }
{
    Configuration {
        depots: b[0],
        pid: b[1],
        quorum: quorum_of(b[2], b[3], b[4]),
    }
}
