// What a box sends to one depot, and to each of several in rising order (the sends of leader.rs and follower.rs).
#![tactic(auto)]

ghost use Rattle.std.specs.Prelude.{◌≡◌, ◌+◌, ◌≤◌, ◌<◌};
ghost use Rattle.base.specs.Limits.{max_depots};
ghost use Rattle.leader_state.specs.State.{own_place};
ghost use Rattle.sends.specs.Sends.{suffix_length, sync_fits, next_session_of, next_seq_num_of, set_latest_of, latest_accdec, send_prepare, send_acc_sync, acc_sync_to, join_to, new_accept_decide, accept_decide_to, new_session, push_acc_sync, push_accept_decide, push_decide, decide_to, send_prepare_req, few_entries, send_one, for_marked, peers_of};

use base::{LARGEST, MAX_DEPOTS};
use leader_state::{PromiseMetaData, PromiseState};
use messages::{AcceptDecide, AcceptSync, Decide, PaxosMsg, Prepare, PrepareReq};
use paxos_box::{Bounded, Join, Send, Sent, SequencePaxos, Source};
use quorum::Configuration;
use std::array::from_fn;

// What goes to each of several depots: `count` entries of the log from `from` on in an AcceptDecide, or none.
// Kept: an enum and no closure, since theorems (`sent-marked`, `along-marked`, `clean-one`, `marked`) and send_each's own clause name its values.
#[derive(Clone, Copy, Debug, PartialEq, Eq)]
pub enum Each {
    Prepare,
    AcceptSync,
    AcceptDecide(usize, usize),
    Decide,
    PrepareReq,
}

// How many entries the log has from a place on.
#[tactic(auto, unfolding(crate::specs::Sends::suffix_length))]
pub fn suffix_length(len: usize, from: usize) -> usize
    ensures value { result ≡ suffix_length len from }
    ensures upper_bound { result ≤ len }
{
    len.saturating_sub(from)
}

// A log sync to be built from past the own log's end makes the message unfit.
#[tactic(auto, unfolding(crate::specs::Sends::sync_fits))]
pub fn check_log_sync(s: Bounded, from: usize) -> Bounded
    ensures { result ≡ sync_fits from s }
{
    if s.inner.internal_storage.accepted_idx < from {
        s.refuse_unfit()
    } else {
        s
    }
}

// Kept: beside next_seq_num, from which it differs in the field read and in the call made; one function for both would take two closures and be longer.
#[tactic(auto, unfolding(crate::specs::Sends::next_session_of))]
fn increment_seq_num_session(s: Bounded, to: u64) -> Bounded
    requires { own_place to }
    ensures { result ≡ next_session_of to s }
{
    let l = s.inner.leader_state;
    if LARGEST <= l.get_seq_num(to).session {
        return s.refuse_top();
    }
    s.set_leader_state(l.increment_seq_num_session(to))
}

#[tactic(auto, unfolding(crate::specs::Sends::next_seq_num_of))]
fn next_seq_num(s: Bounded, to: u64) -> Bounded
    requires { own_place to }
    ensures { result ≡ next_seq_num_of to s }
{
    let l = s.inner.leader_state;
    if LARGEST <= l.get_seq_num(to).counter {
        return s.refuse_top();
    }
    s.set_leader_state(l.next_seq_num(to))
}

pub fn set_latest_accept_meta(s: Bounded, to: u64, latest: Option<usize>) -> Bounded
    requires { own_place to }
    ensures { result ≡ set_latest_of to latest s }
{
    s.set_leader_state(s.inner.leader_state.set_latest_accept_meta(to, latest))
}

#[tactic(auto, unfolding(crate::specs::Sends::send_prepare))]
pub fn send_prepare(s: Bounded, to: u64) -> Bounded
    ensures { result ≡ send_prepare to s }
{
    let found = s.inner.internal_storage;
    let prep = Prepare {
        n: s.inner.leader_state.n_leader,
        decided_idx: found.decided_idx,
        n_accepted: found.accepted_round,
        accepted_idx: found.accepted_idx,
    };
    s.send_new(to, PaxosMsg::Prepare(prep), Source::Nothing, 0)
}

// The session is raised, its counter starts at 1, and (the departure) the remembered AcceptDecide is forgotten.
#[tactic(auto, unfolding(crate::specs::Sends::new_session))]
fn new_session(s: Bounded, to: u64) -> Bounded
    requires { own_place to }
    ensures { result ≡ new_session to s }
{
    let s = increment_seq_num_session(s, to);
    let s = next_seq_num(s, to);
    set_latest_accept_meta(s, to, None)
}

#[tactic(auto, unfolding(crate::specs::Sends::push_acc_sync))]
fn push_accsync(s: Bounded, to: u64, from: usize) -> Bounded
    requires { own_place to }
    ensures { result ≡ push_acc_sync from to s }
{
    let acc_sync = AcceptSync {
        n: s.inner.leader_state.n_leader,
        seq_num: s.inner.leader_state.get_seq_num(to),
        decided_idx: s.inner.internal_storage.decided_idx,
        sync_idx: from,
    };
    let count = suffix_length(s.inner.internal_storage.accepted_idx, from);
    s.send_new(to, PaxosMsg::AcceptSync(acc_sync), Source::Log(from), count)
}

#[tactic(auto, unfolding(crate::specs::Sends::send_acc_sync))]
fn send_accsync_from(s: Bounded, to: u64, follower: PromiseMetaData) -> Bounded
    requires { own_place to }
    ensures { result ≡ send_acc_sync to follower s }
{
    let l = s.inner.leader_state;
    let from = follower.sync_start(l.n_leader, l.max_promise.meta);
    let s = check_log_sync(s, from);
    push_accsync(new_session(s, to), to, from)
}

// A depot that has promised is synced from where its promise says.
#[tactic(auto, unfolding(crate::specs::Sends::acc_sync_to))]
pub fn send_accsync(s: Bounded, to: u64) -> Bounded
    requires { own_place to }
    ensures { result ≡ acc_sync_to to s }
{
    match s.inner.leader_state.get_promise_meta(to) {
        PromiseState::Promised(m) => send_accsync_from(s, to, m),
        PromiseState::NotPromised | PromiseState::PromisedHigher => s,
    }
}

// The remembered AcceptDecide, where an AcceptDecide stands at its position.
#[tactic(auto, unfolding(crate::specs::Sends::latest_accdec))]
fn get_latest_accdec_message(s: SequencePaxos, to: u64) -> Option<usize>
    requires { own_place to }
    ensures { result ≡ latest_accdec to s }
{
    let i = (to - 1) as usize;
    if s.plan.sight.accdec[i] {
        s.leader_state.get_latest_accept_meta(to)
    } else {
        None
    }
}

// Entries and the decided index join the AcceptDecide at a position of the queue.
#[tactic(auto, unfolding(crate::specs::Sends::join_to))]
fn join(s: Bounded, to: u64, at: usize, from: usize, count: usize) -> Bounded
    requires { count ≤ 1024 }
    ensures { result ≡ join_to from count to at s }
{
    let decided_idx = s.inner.internal_storage.decided_idx;
    s.push_send(Send {
        to,
        what: Sent::Join(Join { at, decided_idx }),
        source: Source::Log(from),
        count,
    })
}

#[tactic(auto, unfolding(crate::specs::Sends::push_accept_decide))]
fn push_acceptdecide(s: Bounded, to: u64, from: usize, count: usize) -> Bounded
    requires own_place { own_place to }
    requires count_bound { count ≤ 1024 }
    ensures { result ≡ push_accept_decide from count to s }
{
    let acc = AcceptDecide {
        n: s.inner.leader_state.n_leader,
        seq_num: s.inner.leader_state.get_seq_num(to),
        decided_idx: s.inner.internal_storage.decided_idx,
    };
    s.send_new(to, PaxosMsg::AcceptDecide(acc), Source::Log(from), count)
}

// A new AcceptDecide, remembered by its position.
#[tactic(auto, unfolding(crate::specs::Sends::new_accept_decide))]
fn new_acceptdecide(s: Bounded, to: u64, from: usize, count: usize) -> Bounded
    requires own_place { own_place to }
    requires count_bound { count ≤ 1024 }
    ensures { result ≡ new_accept_decide from count to s }
{
    let at = s.next_place();
    let s = set_latest_accept_meta(s, to, Some(at));
    push_acceptdecide(next_seq_num(s, to), to, from, count)
}

// Entries that joined the log at `from` go to one depot, in a remembered AcceptDecide or a new one.
#[tactic(auto, unfolding(crate::specs::Sends::accept_decide_to))]
pub fn send_acceptdecide(s: Bounded, to: u64, from: usize, count: usize) -> Bounded
    requires own_place { own_place to }
    requires count_bound { count ≤ 1024 }
    ensures { result ≡ accept_decide_to from count to s }
{
    match get_latest_accdec_message(s.inner, to) {
        Some(at) => join(s, to, at, from, count),
        None => new_acceptdecide(s, to, from, count),
    }
}

#[tactic(auto, unfolding(crate::specs::Sends::push_decide))]
fn push_decide(s: Bounded, to: u64) -> Bounded
    requires { own_place to }
    ensures { result ≡ push_decide to s }
{
    let d = Decide {
        n: s.inner.leader_state.n_leader,
        seq_num: s.inner.leader_state.get_seq_num(to),
        decided_idx: s.inner.internal_storage.decided_idx,
    };
    s.send_new(to, PaxosMsg::Decide(d), Source::Nothing, 0)
}

// The decided index goes to one depot, in a remembered AcceptDecide or a Decide.
#[tactic(auto, unfolding(crate::specs::Sends::decide_to))]
pub fn send_decide(s: Bounded, to: u64) -> Bounded
    requires { own_place to }
    ensures { result ≡ decide_to to s }
{
    match get_latest_accdec_message(s.inner, to) {
        Some(at) => join(s, to, at, 0, 0),
        None => push_decide(next_seq_num(s, to), to),
    }
}

#[tactic(auto, unfolding(crate::specs::Sends::send_prepare_req))]
pub fn send_preparereq(s: Bounded, to: u64) -> Bounded
    ensures { result ≡ send_prepare_req to s }
{
    let prepreq = PrepareReq {
        n: s.inner.internal_storage.promise,
    };
    s.send_new(to, PaxosMsg::PrepareReq(prepreq), Source::Nothing, 0)
}

fn send_one(s: Bounded, what: Each, to: u64) -> Bounded
    requires own_place { own_place to }
    requires few_entries { few_entries what }
    ensures { result ≡ send_one what to s }
{
    match what {
        Each::Prepare => send_prepare(s, to),
        Each::AcceptSync => send_accsync(s, to),
        Each::AcceptDecide(from, count) => send_acceptdecide(s, to, from, count),
        Each::Decide => send_decide(s, to),
        Each::PrepareReq => send_preparereq(s, to),
    }
}

// To each depot whose place is marked, in rising order.
#[tactic(auto, using(crate::proofs::Turns::marked_turn), unfolding(crate::specs::Sends::for_marked))]
pub fn send_each(s: Bounded, what: Each, marks: [bool; MAX_DEPOTS as usize]) -> Bounded
    requires { few_entries what }
    ensures { result ≡ for_marked marks what s.config.depots s }
{
    let mut b = s;
    for i in 0..s.inner.config.depots {
        if marks[i as usize] {
            b = send_one(b, what, i + 1);
        }
    }
    b
}

// A mark for each place: the depot there is not oneself.
pub fn peers(c: Configuration) -> [bool; MAX_DEPOTS as usize]
    requires { c.depots ≤ max_depots }
    ensures { result ≡ peers_of c }
{
    from_fn(|i| (i as u64) < c.depots && i as u64 + 1 != c.pid)
}
