// The record that a depot's box keeps between steps, and the deciding box made of it and made into it again.
#![tactic(auto)]

ghost use Rattle.std.specs.Prelude.{◌≡◌};
ghost use Rattle.record.specs.Record.{fresh_record, fresh_plan, load_of, store_of};

use ballot::Ballot;
use base::MAX_BUFFERED;
use leader_state::{Depot, LeaderState, MaxPromise};
use messages::PaxosMsg;
use paxos_box::{
    AcceptedAt, CachedPromise, InternalStorage, LogOp, Outgoing, Phase, Plan, Role, Send, Sends,
    Sent, SequencePaxos, Sight, Source, State, Writes,
};
use quorum::Configuration;
use sequence::SequenceNumber;

// The buffered proposals: the first `len` of them wait.
// Kept: a buffer with its length beside it, since nothing is on the heap and `cell_laws` says that the cells past the length keep what they held; C reads them all (docs/LAYOUT.md).
#[derive(Clone, Copy, Debug, PartialEq, Eq)]
pub struct Buffered {
    pub entries: [u64; MAX_BUFFERED],
    pub len: usize,
}

// `outgoing` is how many messages of the row wait. The log, the two sync buffers, the store and the book are lent beside it.
#[derive(Clone, Copy, Debug, PartialEq, Eq)]
pub struct Record {
    pub internal_storage: InternalStorage,
    pub state: State,
    pub buffered_proposals: Buffered,
    pub outgoing: usize,
    pub leader_state: LeaderState,
    pub latest_accepted_meta: Option<AcceptedAt>,
    pub current_seq_num: SequenceNumber,
    pub cached_promise_message: Option<CachedPromise>,
}

// A plan of nothing.
fn fresh_plan(sight: Sight) -> Plan
    ensures { result ≡ fresh_plan sight }
{
    let none = Send {
        to: 0,
        what: Sent::New(PaxosMsg::ProposalForward),
        source: Source::Nothing,
        count: 0,
    };
    Plan {
        sends: Sends {
            items: [none; 8],
            count: 0,
            messages: 0,
            entries: 0,
        },
        writes: Writes {
            log: LogOp::Keep,
            buffered: 0,
            dropped: 0,
            cached: None,
            best: None,
            buffer: None,
        },
        unfit: false,
        top: false,
        sight,
    }
}

impl Record {
    // A box that never ran: (Follower, None), nothing promised, nothing accepted.
    pub fn fresh() -> Self
        ensures { result ≡ fresh_record }
    {
        Self {
            internal_storage: InternalStorage {
                promise: Ballot::default(),
                accepted_round: Ballot::default(),
                decided_idx: 0,
                accepted_idx: 0,
            },
            state: State {
                role: Role::Follower,
                phase: Phase::None,
            },
            buffered_proposals: Buffered {
                entries: [0; MAX_BUFFERED],
                len: 0,
            },
            outgoing: 0,
            leader_state: LeaderState {
                n_leader: Ballot::default(),
                depots: [Depot::fresh(); 7],
                max_promise: MaxPromise::none(),
            },
            latest_accepted_meta: None,
            current_seq_num: SequenceNumber::default(),
            cached_promise_message: None,
        }
    }

    // The deciding box: the record in numbers, with an empty plan. `entries` is how many the queue's messages carry.
    pub fn load(self, config: Configuration, entries: usize, sight: Sight) -> SequencePaxos
        ensures { result ≡ load_of config entries sight self }
    {
        SequencePaxos {
            config,
            internal_storage: self.internal_storage,
            state: self.state,
            buffered_proposals: self.buffered_proposals.len,
            outgoing: Outgoing {
                len: self.outgoing,
                entries,
            },
            leader_state: self.leader_state,
            latest_accepted_meta: self.latest_accepted_meta,
            current_seq_num: self.current_seq_num,
            cached_promise_message: self.cached_promise_message,
            plan: fresh_plan(sight),
        }
    }

    // The record after a step: what was decided, with these buffered entries and so many messages in the row.
    pub fn store(s: SequencePaxos, entries: [u64; MAX_BUFFERED], outgoing: usize) -> Self
        ensures { result ≡ store_of s entries outgoing }
    {
        Self {
            internal_storage: s.internal_storage,
            state: s.state,
            buffered_proposals: Buffered {
                entries,
                len: s.buffered_proposals,
            },
            outgoing,
            leader_state: s.leader_state,
            latest_accepted_meta: s.latest_accepted_meta,
            current_seq_num: s.current_seq_num,
            cached_promise_message: s.cached_promise_message,
        }
    }
}
