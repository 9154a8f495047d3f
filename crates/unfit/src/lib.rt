// Refusals 3 and 4: whom an event names, and what makes it unfit in every state (document 01, "When a box says no").
#![tactic(auto)]

ghost use Rattle.std.specs.Prelude.{◌≡◌};
ghost use Rattle.unfit.specs.Unfit.{no_depot, wrong_sender, stranger_of, carries, entry_above, past, either_past, start_past, index_above, count_off, forward_off, foreign, either_foreign, ballot_foreign, ballot_default, not_by, sender_off, decided_above, message_unfit, proposal_unfit, unfit_of};

use ballot::Ballot;
use base::{MAX_LOG, MAX_PROPOSAL};
use messages::{Event, PaxosMsg};
use quorum::Configuration;

fn no_depot(c: Configuration, pid: u64) -> bool
    ensures { result ≡ no_depot c pid }
{
    !c.is_depot(pid)
}

// 0, above the depots, or oneself.
#[tactic(auto, unfolding(crate::specs::Unfit::wrong_sender))]
fn wrong_sender(c: Configuration, from: u64) -> bool
    ensures { result ≡ wrong_sender c from }
{
    no_depot(c, from) || from == c.pid
}

// Refusal 3.
pub fn stranger(c: Configuration, e: Event) -> bool
    ensures { result ≡ stranger_of c e }
{
    match e {
        Event::Message(m) => wrong_sender(c, m.from),
        Event::Leader(n) => no_depot(c, n.pid),
        Event::Reconnect(pid) => no_depot(c, pid),
        _ => false,
    }
}

// Whether a message's entries stand beside it. What stands beside any other message is not looked at.
pub fn carries(m: PaxosMsg) -> bool
    ensures { result ≡ carries m }
{
    match m {
        PaxosMsg::Promise(p) => p.log_sync.is_some(),
        PaxosMsg::AcceptSync(_) | PaxosMsg::AcceptDecide(_) | PaxosMsg::ProposalForward => true,
        _ => false,
    }
}

#[tactic(auto, unfolding(crate::specs::Unfit::entry_above))]
fn entry_above(m: PaxosMsg, entries: &[u64]) -> bool
    ensures { result ≡ entry_above m entries.now }
{
    carries(m) && hire_book::any_above(entries)
}

fn past(idx: usize) -> bool
    ensures { result ≡ past idx }
{
    MAX_LOG < idx
}

#[tactic(auto, unfolding(crate::specs::Unfit::either_past))]
fn either_past(a: usize, b: usize) -> bool
    ensures { result ≡ either_past a b }
{
    past(a) || past(b)
}

fn start_past(s: Option<usize>) -> bool
    ensures { result ≡ start_past s }
{
    s.is_some_and(past)
}

fn index_above(m: PaxosMsg) -> bool
    ensures { result ≡ index_above m }
{
    match m {
        PaxosMsg::Prepare(x) => either_past(x.decided_idx, x.accepted_idx),
        PaxosMsg::Promise(x) => {
            either_past(x.decided_idx, x.accepted_idx) || start_past(x.log_sync)
        }
        PaxosMsg::AcceptSync(x) => either_past(x.decided_idx, x.sync_idx),
        PaxosMsg::AcceptDecide(x) => past(x.decided_idx),
        PaxosMsg::Accepted(x) => past(x.accepted_idx),
        PaxosMsg::Decide(x) => past(x.decided_idx),
        PaxosMsg::PrepareReq(_) | PaxosMsg::NotAccepted(_) | PaxosMsg::ProposalForward => false,
    }
}

#[tactic(auto, unfolding(crate::specs::Unfit::count_off))]
fn count_off(n: usize) -> bool
    ensures { result ≡ count_off n }
{
    n == 0 || MAX_PROPOSAL < n
}

fn forward_off(m: PaxosMsg, n: usize) -> bool
    ensures { result ≡ forward_off m n }
{
    matches!(m, PaxosMsg::ProposalForward) && count_off(n)
}

// A nonzero ballot whose pid is no depot.
#[tactic(auto, unfolding(crate::specs::Unfit::foreign))]
pub fn foreign(c: Configuration, n: Ballot) -> bool
    ensures { result ≡ foreign c n }
{
    !n.is_default() && no_depot(c, n.pid)
}

#[tactic(auto, unfolding(crate::specs::Unfit::either_foreign))]
pub fn either_foreign(c: Configuration, a: Ballot, b: Ballot) -> bool
    ensures { result ≡ either_foreign c a b }
{
    foreign(c, a) || foreign(c, b)
}

pub fn ballot_foreign(c: Configuration, m: PaxosMsg) -> bool
    ensures { result ≡ ballot_foreign c m }
{
    match m {
        PaxosMsg::PrepareReq(x) => foreign(c, x.n),
        PaxosMsg::Prepare(x) => either_foreign(c, x.n, x.n_accepted),
        PaxosMsg::Promise(x) => either_foreign(c, x.n, x.n_accepted),
        PaxosMsg::AcceptSync(x) => foreign(c, x.n),
        PaxosMsg::AcceptDecide(x) => foreign(c, x.n),
        PaxosMsg::Accepted(x) => foreign(c, x.n),
        PaxosMsg::NotAccepted(x) => foreign(c, x.n),
        PaxosMsg::Decide(x) => foreign(c, x.n),
        PaxosMsg::ProposalForward => false,
    }
}

fn ballot_default(m: PaxosMsg) -> bool
    ensures { result ≡ ballot_default m }
{
    match m {
        PaxosMsg::Prepare(x) => x.n.is_default(),
        PaxosMsg::Promise(x) => x.n.is_default(),
        PaxosMsg::AcceptSync(x) => x.n.is_default(),
        PaxosMsg::AcceptDecide(x) => x.n.is_default(),
        PaxosMsg::Accepted(x) => x.n.is_default(),
        PaxosMsg::NotAccepted(x) => x.n.is_default(),
        PaxosMsg::Decide(x) => x.n.is_default(),
        PaxosMsg::PrepareReq(_) | PaxosMsg::ProposalForward => false,
    }
}

fn not_by(from: u64, n: Ballot) -> bool
    ensures { result ≡ not_by from n }
{
    from != n.pid
}

fn sender_off(from: u64, m: PaxosMsg) -> bool
    ensures { result ≡ sender_off from m }
{
    match m {
        PaxosMsg::Prepare(x) => not_by(from, x.n),
        PaxosMsg::AcceptSync(x) => not_by(from, x.n),
        PaxosMsg::AcceptDecide(x) => not_by(from, x.n),
        PaxosMsg::Decide(x) => not_by(from, x.n),
        _ => false,
    }
}

fn decided_above(m: PaxosMsg) -> bool
    ensures { result ≡ decided_above m }
{
    match m {
        PaxosMsg::Prepare(x) => x.accepted_idx < x.decided_idx,
        PaxosMsg::Promise(x) => x.accepted_idx < x.decided_idx,
        _ => false,
    }
}

#[tactic(auto, unfolding(crate::specs::Unfit::message_unfit))]
fn message_unfit(c: Configuration, from: u64, m: PaxosMsg, entries: &[u64]) -> bool
    ensures { result ≡ message_unfit c from m entries.now }
{
    entry_above(m, entries)
        || index_above(m)
        || forward_off(m, entries.len())
        || ballot_foreign(c, m)
        || ballot_default(m)
        || sender_off(from, m)
        || decided_above(m)
}

#[tactic(auto, unfolding(crate::specs::Unfit::proposal_unfit))]
fn proposal_unfit(entries: &[u64]) -> bool
    ensures { result ≡ proposal_unfit entries.now }
{
    hire_book::any_above(entries) || count_off(entries.len())
}

// Refusal 4, as far as it is given in every state.
pub fn unfit(c: Configuration, e: Event, entries: &[u64]) -> bool
    ensures { result ≡ unfit_of c e entries.now }
{
    match e {
        Event::Message(x) => message_unfit(c, x.from, x.msg, entries),
        Event::Propose => proposal_unfit(entries),
        _ => false,
    }
}
