// Messages between depots, and what else a step may be given (messages.rs). Entries stand beside a message, in a slice or in the store.
#![tactic(auto)]

ghost use Rattle.std.specs.Prelude.{◌≡◌};
ghost use Rattle.messages.specs.Messages.{is_accept_decide, is_accepted, with_decided, with_accepted};

use ballot::Ballot;
use base::MAX_MESSAGES;
use sequence::SequenceNumber;

// A follower asks to be prepared again, and tells its promise.
#[derive(Clone, Copy, Debug, PartialEq, Eq)]
pub struct PrepareReq {
    pub n: Ballot,
}

// A leader prepares a follower, and tells how far its own log goes.
#[derive(Clone, Copy, Debug, PartialEq, Eq)]
pub struct Prepare {
    pub n: Ballot,
    pub decided_idx: usize,
    pub n_accepted: Ballot,
    pub accepted_idx: usize,
}

#[derive(Clone, Copy, Debug, PartialEq, Eq)]
pub struct Promise {
    pub n: Ballot,
    pub n_accepted: Ballot,
    pub decided_idx: usize,
    pub accepted_idx: usize,
    pub log_sync: Option<usize>,
}

// The log from `sync_idx` on is to become the suffix, which stands beside it.
#[derive(Clone, Copy, Debug, PartialEq, Eq)]
pub struct AcceptSync {
    pub n: Ballot,
    pub seq_num: SequenceNumber,
    pub decided_idx: usize,
    pub sync_idx: usize,
}

// Entries to be appended, which stand beside it, and the decided index.
#[derive(Clone, Copy, Debug, PartialEq, Eq)]
pub struct AcceptDecide {
    pub n: Ballot,
    pub seq_num: SequenceNumber,
    pub decided_idx: usize,
}

#[derive(Clone, Copy, Debug, PartialEq, Eq)]
pub struct Accepted {
    pub n: Ballot,
    pub accepted_idx: usize,
}

#[derive(Clone, Copy, Debug, PartialEq, Eq)]
pub struct NotAccepted {
    pub n: Ballot,
}

#[derive(Clone, Copy, Debug, PartialEq, Eq)]
pub struct Decide {
    pub n: Ballot,
    pub seq_num: SequenceNumber,
    pub decided_idx: usize,
}

#[derive(Clone, Copy, Debug, PartialEq, Eq)]
pub enum PaxosMsg {
    PrepareReq(PrepareReq),
    Prepare(Prepare),
    Promise(Promise),
    AcceptSync(AcceptSync),
    AcceptDecide(AcceptDecide),
    Accepted(Accepted),
    NotAccepted(NotAccepted),
    Decide(Decide),
    ProposalForward,
}

// A message that arrives.
#[derive(Clone, Copy, Debug, PartialEq, Eq)]
pub struct PaxosMessage {
    pub from: u64,
    pub msg: PaxosMsg,
}

// A message of the outgoing queue: to whom, what, and where in the store its entries lie.
// Kept as a start and a count: the store is lent and of fixed size, and its words are the C interface's.
#[derive(Clone, Copy, Debug, PartialEq, Eq)]
pub struct Head {
    pub to: u64,
    pub msg: PaxosMsg,
    pub start: usize,
    pub count: usize,
}

// The row of heads by value. How many of them wait is the record's.
// Kept as a full row with its length elsewhere: no heap, and what lies past the length stays as found.
#[derive(Clone, Copy, Debug, PartialEq, Eq)]
pub struct Row {
    pub heads: [Head; MAX_MESSAGES],
}

// What a step is given. The entries of a message or a proposal stand beside it.
#[derive(Clone, Copy, Debug, PartialEq, Eq)]
pub enum Event {
    Message(PaxosMessage),
    Propose,
    Leader(Ballot),
    Reconnect(u64),
    Resend,
    Drain,
    Restart,
}

impl PaxosMsg {
    pub fn is_accept_decide(self) -> bool
        ensures { result ≡ is_accept_decide self }
    {
        matches!(self, PaxosMsg::AcceptDecide(_))
    }

    pub fn is_accepted(self) -> bool
        ensures { result ≡ is_accepted self }
    {
        matches!(self, PaxosMsg::Accepted(_))
    }

    // An AcceptDecide with another decided index; any other message as it is.
    pub fn with_decided(self, decided_idx: usize) -> PaxosMsg
        ensures { result ≡ with_decided decided_idx self }
    {
        match self {
            PaxosMsg::AcceptDecide(m) => PaxosMsg::AcceptDecide(AcceptDecide { decided_idx, ..m }),
            _ => self,
        }
    }

    // An Accepted with another index; any other message as it is.
    pub fn with_accepted(self, accepted_idx: usize) -> PaxosMsg
        ensures { result ≡ with_accepted accepted_idx self }
    {
        match self {
            PaxosMsg::Accepted(m) => PaxosMsg::Accepted(Accepted { accepted_idx, ..m }),
            _ => self,
        }
    }
}
