// What a follower does with AcceptSync, AcceptDecide and Decide (follower.rs). Each handler takes the box and hands it back.
#![tactic(auto)]

ghost use Rattle.std.specs.Prelude.{◌≡◌};
ghost use Rattle.accepting.specs.Accepting.{Passes, if_valid_ballot, if_expected, not_accepted, send_accepted, acceptsync_taken, handle_acceptsync, counter_at_top, latest_accepted, raise_accepted, reply_accepted, update_decided, acceptdecide_fit, handle_acceptdecide, decide_taken, handle_decide};

use ballot::Ballot;
use base::{LARGEST, MAX_LOG};
use leader_state::LogSync;
use messages::{AcceptDecide, AcceptSync, Accepted, Decide, NotAccepted, PaxosMsg};
use paxos_box::{
    AcceptedAt, Bounded, LogOp, Phase, Raise, Role, Send, Sent, SequencePaxos, Source, Standing,
};
use sequence::{MessageStatus, SequenceNumber};
use std::cmp::Ordering;

fn not_accepted(s: Bounded, n: Ballot) -> Bounded
    ensures { result ≡ not_accepted n s }
{
    let m = NotAccepted {
        n: s.inner.internal_storage.promise,
    };
    s.send_new(n.pid, PaxosMsg::NotAccepted(m), Source::Nothing, 0)
}

// Whether a message's ballot is the own promise. A lower one gets NotAccepted, a higher one `reconnected`.
#[tactic(auto, unfolding(ballot::specs::Ballot::compare_of))]
fn check_valid_ballot(s: &mut Bounded, n: Ballot) -> bool
    ensures { Passes result (λ taken. if_valid_ballot n taken s.old) s.old s.new }
{
    match s.inner.internal_storage.promise.cmp(&n) {
        Ordering::Equal => return true,
        Ordering::Greater => *s = not_accepted(*s, n),
        Ordering::Less => *s = reconnect::reconnected(*s, n.pid),
    }
    false
}

// Kept, here and in `reply_accepted`: ballot and index one by one, since with an Accepted passed whole the proof did not close.
#[tactic(auto, unfolding(crate::specs::Accepting::send_accepted))]
fn push_accepted(s: Bounded, n: Ballot, accepted_idx: usize, to: u64) -> Bounded
    ensures { result ≡ send_accepted n accepted_idx to s }
{
    let at = s.next_place();
    let m = Accepted { n, accepted_idx };
    s.set_latest_accepted(Some(AcceptedAt { n, at }))
        .send_new(to, PaxosMsg::Accepted(m), Source::Nothing, 0)
}

#[tactic(auto, unfolding(crate::specs::Accepting::acceptsync_taken, crate::specs::Accepting::acceptsync_put, crate::specs::Accepting::following, log_plan::specs::Log::sync_unfit, log_plan::specs::Log::ends_past))]
fn acceptsync_taken(s: Bounded, m: AcceptSync, count: usize, from: u64) -> Bounded
    ensures { result ≡ acceptsync_taken m count from s }
{
    let x = LogSync {
        sync_idx: m.sync_idx,
        len: count,
    };
    if log_plan::sync_unfit(s.inner, x, s.inner.plan.sight.brought_change, m.decided_idx) {
        return s.refuse_unfit();
    }
    let end = m.sync_idx + count;
    let s = log_plan::sync_log(
        s.set_cached(None),
        m.n,
        m.decided_idx,
        end,
        LogOp::PutGiven(x),
    );
    let s = log_plan::forward_buffered_proposals(s)
        .set_state(Role::Follower, Phase::Accept)
        .set_current_seq_num(m.seq_num);
    push_accepted(s, m.n, end, from)
}

// An AcceptSync with `count` entries of suffix given.
#[tactic(auto, unfolding(crate::specs::Accepting::handle_acceptsync))]
pub fn handle_acceptsync(mut s: Bounded, m: AcceptSync, count: usize, from: u64) -> Bounded
    ensures { result ≡ handle_acceptsync m count from s }
{
    if check_valid_ballot(&mut s, m.n)
        && matches!(s.inner.state.standing(), Standing::FollowerPrepare)
    {
        return acceptsync_taken(s, m, count, from);
    }
    s
}

// The own counter can't be compared with one of the same session any more.
#[tactic(auto, unfolding(crate::specs::Accepting::counter_at_top))]
fn counter_at_top(s: SequencePaxos, q: SequenceNumber) -> bool
    ensures { result ≡ counter_at_top q s }
{
    q.session == s.current_seq_num.session && s.current_seq_num.counter == LARGEST
}

// Whether a message's number is the next one. A dropped one gets `reconnected`, an outdated one nothing, and a counter at the top refuses.
fn handle_sequence_num(s: &mut Bounded, q: SequenceNumber, from: u64) -> bool
    ensures { Passes result (λ taken. if_expected q from taken s.old) s.old s.new }
{
    if counter_at_top(s.inner, q) {
        *s = s.refuse_top();
        return false;
    }
    match s.inner.current_seq_num.check_msg_status(q) {
        MessageStatus::Expected => return true,
        MessageStatus::DroppedPreceding => *s = reconnect::reconnected(*s, from),
        MessageStatus::Outdated => {}
    }
    false
}

// The remembered Accepted, where it is of this ballot and an Accepted stands at its position.
#[tactic(auto, unfolding(crate::specs::Accepting::latest_accepted, ballot::specs::Ballot::same, ballot::specs::Ballot::compare_of))]
fn get_latest_accepted_message(s: SequencePaxos, n: Ballot) -> Option<AcceptedAt>
    ensures { result ≡ latest_accepted n s }
{
    match s.latest_accepted_meta {
        Some(x) if s.plan.sight.accepted && x.n == n => Some(x),
        _ => None,
    }
}

fn raise_accepted(s: Bounded, n: Ballot, at: usize, accepted_idx: usize) -> Bounded
    ensures { result ≡ raise_accepted n at accepted_idx s }
{
    s.push_send(Send {
        to: n.pid,
        what: Sent::Raise(Raise { at, accepted_idx }),
        source: Source::Nothing,
        count: 0,
    })
}

#[tactic(auto, unfolding(crate::specs::Accepting::reply_accepted))]
fn reply_accepted(s: Bounded, n: Ballot, accepted_idx: usize) -> Bounded
    ensures { result ≡ reply_accepted n accepted_idx s }
{
    match get_latest_accepted_message(s.inner, n) {
        Some(x) => raise_accepted(s, n, x.at, accepted_idx),
        None => push_accepted(s, n, accepted_idx, n.pid),
    }
}

#[tactic(auto, unfolding(crate::specs::Accepting::update_decided))]
fn update_decided_idx(s: Bounded, idx: usize) -> Bounded
    ensures { result ≡ update_decided idx s }
{
    if s.inner.internal_storage.decided_idx < idx {
        return s.set_decided_idx(idx.min(s.inner.internal_storage.accepted_idx));
    }
    s
}

#[tactic(auto, unfolding(crate::specs::Accepting::acceptdecide_fit, crate::specs::Accepting::acceptdecide_taken))]
fn acceptdecide_fit(s: Bounded, m: AcceptDecide, count: usize) -> Bounded
    ensures { result ≡ acceptdecide_fit m.n m.seq_num m.decided_idx count s }
{
    let len = s.inner.internal_storage.accepted_idx;
    if count == 0 || MAX_LOG.saturating_sub(len) < count {
        return s.refuse_unfit();
    }
    let s = log_plan::append_entries(s.set_current_seq_num(m.seq_num), count);
    reply_accepted(update_decided_idx(s, m.decided_idx), m.n, len + count)
}

// An AcceptDecide with `count` entries given.
#[tactic(auto, unfolding(crate::specs::Accepting::handle_acceptdecide))]
pub fn handle_acceptdecide(mut s: Bounded, m: AcceptDecide, count: usize) -> Bounded
    ensures { result ≡ handle_acceptdecide m.n m.seq_num m.decided_idx count s }
{
    if check_valid_ballot(&mut s, m.n)
        && matches!(s.inner.state.standing(), Standing::FollowerAccept)
        && handle_sequence_num(&mut s, m.seq_num, m.n.pid)
    {
        return acceptdecide_fit(s, m, count);
    }
    s
}

#[tactic(auto, unfolding(crate::specs::Accepting::decide_taken))]
fn decide_taken(s: Bounded, m: Decide) -> Bounded
    ensures { result ≡ decide_taken m.n m.decided_idx s }
{
    let len = s.inner.internal_storage.accepted_idx;
    let s = update_decided_idx(s, m.decided_idx);
    if len < m.decided_idx {
        return reply_accepted(s, m.n, len);
    }
    s
}

#[tactic(auto, unfolding(crate::specs::Accepting::handle_decide))]
pub fn handle_decide(mut s: Bounded, m: Decide) -> Bounded
    ensures { result ≡ handle_decide m.n m.seq_num m.decided_idx s }
{
    if check_valid_ballot(&mut s, m.n)
        && s.inner.state.phase.is_accept()
        && handle_sequence_num(&mut s, m.seq_num, m.n.pid)
    {
        return decide_taken(s.set_current_seq_num(m.seq_num), m);
    }
    s
}
