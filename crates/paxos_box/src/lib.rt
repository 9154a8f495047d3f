// A box of Sequence Paxos as it decides: what it holds, in numbers, and the plan of what the step sends and writes (sequence_paxos/mod.rs).
// Lists are lent: here stand their lengths. A step decides first and writes after, so what it may not do is known before anything is written.
#![tactic(auto)]

ghost use Rattle.std.specs.Prelude.{◌≡◌, ◌+◌, ◌*◌, ◌≤◌, ◌<◌};
ghost use Rattle.paxos_box.specs.declared.Sent.TheVariants.{New};
ghost use Rattle.paxos_box.specs.Room.{Room};
ghost use Rattle.paxos_box.specs.declared.SequencePaxos.{SequencePaxos};
ghost use Rattle.paxos_box.specs.Box.{is_new, planned, push_of, next_place, unfit, at_top, with_state, with_leader, with_storage, with_writes, set_promised, set_decided, set_length, set_seq, set_cached, set_meta, set_buffered, log_op, cached_op, best_op, buffer_op, kept_buffered, is_recover, is_accept_phase, is_leader, standing_of};

use ballot::Ballot;
use base::MAX_DEPOTS;
use leader_state::{LeaderState, LogSync};
use messages::PaxosMsg;
use quorum::Configuration;
use sequence::SequenceNumber;
use std::marker::Model;

#[derive(Clone, Copy, Debug, PartialEq, Eq)]
pub enum Role {
    Follower,
    Leader,
}

#[derive(Clone, Copy, Debug, PartialEq, Eq)]
pub enum Phase {
    Prepare,
    Accept,
    Recover,
    None,
}

#[derive(Clone, Copy, Debug, PartialEq, Eq)]
pub struct State {
    pub role: Role,
    pub phase: Phase,
}

// What outlives a restart, the log by its length, `accepted_idx`.
#[derive(Clone, Copy, Debug, PartialEq, Eq)]
pub struct InternalStorage {
    pub promise: Ballot,
    pub accepted_round: Ballot,
    pub decided_idx: usize,
    pub accepted_idx: usize,
}

// The queue: how many messages wait, and how many entries they carry.
#[derive(Clone, Copy, Debug, PartialEq, Eq)]
pub struct Outgoing {
    pub len: usize,
    pub entries: usize,
}

// The last Promise sent, for a resend; its sync's entries lie in a lent buffer.
#[derive(Clone, Copy, Debug, PartialEq, Eq)]
pub struct CachedPromise {
    pub n: Ballot,
    pub n_accepted: Ballot,
    pub decided_idx: usize,
    pub accepted_idx: usize,
    pub sync: Option<LogSync>,
}

// Where an Accepted that still waits stands in the queue, and of which ballot it is.
#[derive(Clone, Copy, Debug, PartialEq, Eq)]
pub struct AcceptedAt {
    pub n: Ballot,
    pub at: usize,
}

// Where a planned message's entries come from: the log as the step leaves it, from a place on; the entries given with the event;
// the buffered proposals as found; the cached promise's buffer as the step leaves it.
#[derive(Clone, Copy, Debug, PartialEq, Eq)]
pub enum Source {
    Nothing,
    Log(usize),
    Given,
    Buffered,
    Cached,
}

// The AcceptDecide that stands at a position of the queue gets this decided index, and the entries join it.
#[derive(Clone, Copy, Debug, PartialEq, Eq)]
pub struct Join {
    pub at: usize,
    pub decided_idx: usize,
}

// The Accepted that stands at a position of the queue gets this index.
#[derive(Clone, Copy, Debug, PartialEq, Eq)]
pub struct Raise {
    pub at: usize,
    pub accepted_idx: usize,
}

#[derive(Clone, Copy)]
pub enum Sent {
    New(PaxosMsg),
    Join(Join),
    Raise(Raise),
}

// One thing that the step does to the queue, with `count` entries from their source.
#[derive(Clone, Copy)]
pub struct Send {
    pub to: u64,
    pub what: Sent,
    pub source: Source,
    pub count: usize,
}

// What the step does to the queue, in order; how many new messages, and how many entries they and the joins bring.
// Kept: a buffer with its length, since a step allocates nothing, and `sending`, `items_of` and `Summed` speak of places past the length too.
#[derive(Clone, Copy)]
pub struct Sends {
    pub items: [Send; 8],
    pub count: usize,
    pub messages: usize,
    pub entries: usize,
}

// To the log: nothing; the given entries appended; the log from a place on rewritten by the given entries, or by the held sync's.
#[derive(Clone, Copy)]
pub enum LogOp {
    Keep,
    Append(usize),
    PutGiven(LogSync),
    PutHeld(LogSync),
}

// What the step writes. `buffered` proposals join the log's end after `log`; `dropped` are dropped. The cached promise's buffer takes the
// log's part `cached`; the held sync's buffer takes the `best` given entries; `buffer` given entries join the buffered proposals.
#[derive(Clone, Copy)]
pub struct Writes {
    pub log: LogOp,
    pub buffered: usize,
    pub dropped: usize,
    pub cached: Option<LogSync>,
    pub best: Option<usize>,
    pub buffer: Option<usize>,
}

// What deciding needs of the lists: whether an AcceptDecide (an Accepted) stands where one is remembered, and the first place of the
// log that the held sync, or the one brought, would change.
#[derive(Clone, Copy)]
pub struct Sight {
    pub accdec: [bool; MAX_DEPOTS as usize],
    pub accepted: bool,
    pub held_change: usize,
    pub brought_change: usize,
}

// What a step will do, and whether it must be refused: with 4 (`unfit`) or 7 (`top`).
// Kept: two flags with no value of their own, since `outcome_refusal` and the table's order (4 before 7) read both.
#[derive(Clone, Copy)]
pub struct Plan {
    pub sends: Sends,
    pub writes: Writes,
    pub unfit: bool,
    pub top: bool,
    pub sight: Sight,
}

#[derive(Clone, Copy)]
pub struct SequencePaxos {
    pub config: Configuration,
    pub internal_storage: InternalStorage,
    pub state: State,
    pub buffered_proposals: usize,
    pub outgoing: Outgoing,
    pub leader_state: LeaderState,
    pub latest_accepted_meta: Option<AcceptedAt>,
    pub current_seq_num: SequenceNumber,
    pub cached_promise_message: Option<CachedPromise>,
    pub plan: Plan,
}

// The pairs of role and phase that a rule names.
#[derive(Clone, Copy, Debug, PartialEq, Eq)]
pub enum Standing {
    LeaderPrepare,
    LeaderAccept,
    FollowerPrepare,
    FollowerAccept,
    Other,
}

impl Sent {
    // An edit is no new message.
    fn is_new(self) -> usize
        ensures value { result ≡ is_new self }
        ensures upper_bound { result ≤ 1 }
    {
        usize::from(matches!(self, Sent::New(_)))
    }
}

impl Role {
    pub fn is_leader(self) -> bool
        ensures { result ≡ is_leader self }
    {
        matches!(self, Role::Leader)
    }
}

impl Phase {
    pub fn is_recover(self) -> bool
        ensures { result ≡ is_recover self }
    {
        matches!(self, Phase::Recover)
    }

    pub fn is_accept(self) -> bool
        ensures { result ≡ is_accept_phase self }
    {
        matches!(self, Phase::Accept)
    }
}

impl State {
    pub fn standing(self) -> Standing
        ensures { result ≡ standing_of self.role self.phase }
    {
        match (self.role, self.phase) {
            (Role::Leader, Phase::Prepare) => Standing::LeaderPrepare,
            (Role::Leader, Phase::Accept) => Standing::LeaderAccept,
            (Role::Follower, Phase::Prepare) => Standing::FollowerPrepare,
            (Role::Follower, Phase::Accept) => Standing::FollowerAccept,
            _ => Standing::Other,
        }
    }
}

impl Plan {
    #[tactic(auto, unfolding(crate::specs::Box::planned))]
    fn with_send(mut self, m: Send) -> Self
        requires messages_le_count { self.sends.messages ≤ self.sends.count }
        requires entries_bound { self.sends.entries ≤ 1024 * self.sends.count }
        requires count_bound { m.count ≤ 1024 }
        ensures { result ≡ planned m self }
    {
        let at = self.sends.count;
        if at < 8 {
            self.sends.items[at] = m;
            self.sends.count += 1;
            self.sends.messages += m.what.is_new();
            self.sends.entries += m.count;
        }
        self
    }
}

impl SequencePaxos {
    pub fn set_storage(mut self, t: InternalStorage) -> Self
        ensures { result ≡ with_storage t self }
    {
        self.internal_storage = t;
        self
    }

    pub fn set_length(mut self, len: usize) -> Self
        ensures { result ≡ set_length len self }
    {
        self.internal_storage.accepted_idx = len;
        self
    }

    pub fn set_buffered(mut self, n: usize) -> Self
        ensures { result ≡ set_buffered n self }
    {
        self.buffered_proposals = n;
        self
    }
}

// A deciding box whose sums are known to be small (`Room`): what every step of deciding takes and hands back. It shows the box in it.
#[derive(Clone, Copy)]
pub struct Bounded {
    pub inner: SequencePaxos,
}

impl Model for Bounded {
    ghost Value = { SequencePaxos };

    ghost view = { λ b. b.inner };

    ghost invariant = { λ b. Room b.inner };

    ghost inverse = { λ s. record { inner = s } };
}

impl Bounded {
    // A plan has room for eight things and a step plans six at most, so none is ever left out.
    #[tactic(auto, unfolding(crate::specs::Box::push_of))]
    pub fn push_send(mut self, m: Send) -> Self
        requires { m.count ≤ 1024 }
        ensures { result ≡ push_of m self }
    {
        self.inner.plan = self.inner.plan.with_send(m);
        self
    }

    // A new message, with `count` entries from `source`.
    pub fn send_new(self, to: u64, msg: PaxosMsg, source: Source, count: usize) -> Self
        requires { count ≤ 1024 }
        ensures { result ≡ push_of (record { to = to; what = New msg; source = source; count = count }) self }
    {
        self.push_send(Send {
            to,
            what: Sent::New(msg),
            source,
            count,
        })
    }

    // The position that the next new message will have in the queue.
    pub fn next_place(self) -> usize
        ensures { result ≡ next_place self }
    {
        self.inner.outgoing.len + self.inner.plan.sends.messages
    }

    // The step is refused with 4.
    pub fn refuse_unfit(mut self) -> Self
        ensures { result ≡ unfit self }
    {
        self.inner.plan.unfit = true;
        self
    }

    // The step is refused with 7.
    pub fn refuse_top(mut self) -> Self
        ensures { result ≡ at_top self }
    {
        self.inner.plan.top = true;
        self
    }

    pub fn set_state(mut self, role: Role, phase: Phase) -> Self
        ensures { result ≡ with_state (record { role = role; phase = phase }) self }
    {
        self.inner.state = State { role, phase };
        self
    }

    pub fn set_leader_state(mut self, l: LeaderState) -> Self
        ensures { result ≡ with_leader l self }
    {
        self.inner.leader_state = l;
        self
    }

    pub fn set_promise(mut self, n: Ballot) -> Self
        ensures { result ≡ set_promised n self }
    {
        self.inner.internal_storage.promise = n;
        self
    }

    pub fn set_decided_idx(mut self, idx: usize) -> Self
        ensures { result ≡ set_decided idx self }
    {
        self.inner.internal_storage.decided_idx = idx;
        self
    }

    pub fn set_current_seq_num(mut self, q: SequenceNumber) -> Self
        ensures { result ≡ set_seq q self }
    {
        self.inner.current_seq_num = q;
        self
    }

    pub fn set_cached(mut self, message: Option<CachedPromise>) -> Self
        ensures { result ≡ set_cached message self }
    {
        self.inner.cached_promise_message = message;
        self
    }

    pub fn set_latest_accepted(mut self, meta: Option<AcceptedAt>) -> Self
        ensures { result ≡ set_meta meta self }
    {
        self.inner.latest_accepted_meta = meta;
        self
    }

    pub fn set_writes(mut self, w: Writes) -> Self
        ensures { result ≡ with_writes w self }
    {
        self.inner.plan.writes = w;
        self
    }

    pub fn set_storage(self, t: InternalStorage) -> Self
        requires { t.accepted_idx ≤ 1024 }
        ensures { result ≡ with_storage t self }
    {
        Bounded {
            inner: self.inner.set_storage(t),
        }
    }

    pub fn set_length(self, len: usize) -> Self
        requires { len ≤ 1024 }
        ensures { result ≡ set_length len self }
    {
        Bounded {
            inner: self.inner.set_length(len),
        }
    }

    pub fn set_buffered(self, n: usize) -> Self
        requires { n ≤ 64 }
        ensures { result ≡ set_buffered n self }
    {
        Bounded {
            inner: self.inner.set_buffered(n),
        }
    }
}

impl Writes {
    pub fn with_log(self, log: LogOp) -> Self
        ensures { result ≡ log_op log self }
    {
        Self { log, ..self }
    }

    pub fn with_cached(self, cached: Option<LogSync>) -> Self
        ensures { result ≡ cached_op cached self }
    {
        Self { cached, ..self }
    }

    pub fn with_best(self, best: Option<usize>) -> Self
        ensures { result ≡ best_op best self }
    {
        Self { best, ..self }
    }

    pub fn with_buffer(self, buffer: Option<usize>) -> Self
        ensures { result ≡ buffer_op buffer self }
    {
        Self { buffer, ..self }
    }

    // So many buffered proposals join the log, so many are dropped.
    pub fn with_buffered(mut self, kept: usize, dropped: usize) -> Self
        ensures { result ≡ kept_buffered kept dropped self }
    {
        self.buffered = kept;
        self.dropped = dropped;
        self
    }
}
