// What a leader does with each event (leader.rs). Each function takes the box and hands it back.
#![tactic(auto)]

ghost use Rattle.std.specs.Prelude.{◌≡◌, ◌+◌, ◌≤◌, ◌<◌};
ghost use Rattle.leader_state.specs.State.{own_place};
ghost use Rattle.sends.specs.Sends.{few_entries};
ghost use Rattle.leader.specs.Leader.{for_followers, new_leader, own_promise, become_leader, become_follower, handle_leader, prepare_again, handle_prepare_req, set_accepted_of, own_accepted, accept_entries_leader, handle_forwarded_proposal, leader_syncs, sync_held, sync_with_best, sync_taken, handle_majority_promises, keep_sync, handle_promise_prepare, handle_promise_accept, handle_promise, decide_if_chosen, accepted_taken, handle_accepted, handle_not_accepted, resend_messages_leader};

use ballot::Ballot;
use leader_state::{LogSync, PromiseMetaData};
use paxos_box::{Bounded, LogOp, Phase, Role, Standing};
use sends::Each;

fn for_followers(s: Bounded, what: Each) -> Bounded
    requires { few_entries what }
    ensures { result ≡ for_followers what s }
{
    sends::send_each(
        s,
        what,
        s.inner.leader_state.get_promised_followers(s.inner.config),
    )
}

#[tactic(auto, unfolding(crate::specs::Leader::new_leader))]
fn new_leader(s: Bounded, n: Ballot) -> Bounded
    ensures { result ≡ new_leader n s }
{
    s.set_leader_state(s.inner.leader_state.with(n, s.inner.config))
        .set_promise(n)
}

// The own promise goes into the leader's record; it never completes a read quorum by itself.
#[tactic(auto, unfolding(crate::specs::Leader::own_promise))]
fn own_promise(s: Bounded) -> Bounded
    ensures { result ≡ own_promise s }
{
    let t = s.inner.internal_storage;
    let m = PromiseMetaData {
        n_accepted: t.accepted_round,
        accepted_idx: t.accepted_idx,
        decided_idx: t.decided_idx,
        pid: s.inner.config.pid,
    };
    s.set_leader_state(
        s.inner
            .leader_state
            .set_promise(m, None, true, s.inner.config)
            .state,
    )
}

#[tactic(auto, unfolding(crate::specs::Leader::become_leader))]
fn become_leader(s: Bounded, n: Ballot) -> Bounded
    ensures { result ≡ become_leader n s }
{
    let s = own_promise(new_leader(s, n)).set_state(Role::Leader, Phase::Prepare);
    sends::send_each(s, Each::Prepare, sends::peers(s.inner.config))
}

fn become_follower(s: Bounded) -> Bounded
    ensures { result ≡ become_follower s }
{
    s.set_state(Role::Follower, s.inner.state.phase)
}

#[tactic(auto, unfolding(crate::specs::Leader::handle_leader, ballot::specs::Ballot::above, ballot::specs::Ballot::compare_of))]
pub fn handle_leader(s: Bounded, n: Ballot) -> Bounded
    ensures { result ≡ handle_leader n s }
{
    // Kept as two tests: joined by `||` the proof did not close.
    if n <= s.inner.leader_state.n_leader {
        return s;
    }
    if n <= s.inner.internal_storage.promise {
        return s;
    }
    if n.pid == s.inner.config.pid {
        become_leader(s, n)
    } else {
        become_follower(s)
    }
}

// The depot's promise and its remembered AcceptDecide are taken back, and it is prepared again.
#[tactic(auto, unfolding(crate::specs::Leader::prepare_again))]
fn prepare_again(s: Bounded, from: u64) -> Bounded
    requires { own_place from }
    ensures { result ≡ prepare_again from s }
{
    let s = s.set_leader_state(s.inner.leader_state.reset_promise(from));
    sends::send_prepare(sends::set_latest_accept_meta(s, from, None), from)
}

#[tactic(auto, unfolding(crate::specs::Leader::handle_prepare_req, ballot::specs::Ballot::above, ballot::specs::Ballot::compare_of))]
pub fn handle_preparereq(s: Bounded, n: Ballot, from: u64) -> Bounded
    requires { own_place from }
    ensures { result ≡ handle_prepare_req n from s }
{
    if s.inner.state.role.is_leader() {
        if n > s.inner.leader_state.n_leader {
            return s;
        }
        return prepare_again(s, from);
    }
    s
}

fn set_accepted_idx(s: Bounded, pid: u64, idx: usize) -> Bounded
    requires { own_place pid }
    ensures { result ≡ set_accepted_of pid idx s }
{
    s.set_leader_state(s.inner.leader_state.set_accepted_idx(pid, idx))
}

// A leader has accepted its own log.
fn own_accepted(s: Bounded) -> Bounded
    ensures { result ≡ own_accepted s }
{
    let pid = s.inner.config.pid;
    let idx = s.inner.internal_storage.accepted_idx;
    set_accepted_idx(s, pid, idx)
}

#[tactic(auto, unfolding(crate::specs::Leader::accept_entries_leader))]
fn accept_entries_leader(s: Bounded, count: usize) -> Bounded
    requires { s.internal_storage.accepted_idx + count ≤ 1024 }
    ensures { result ≡ accept_entries_leader count s }
{
    let from = s.inner.internal_storage.accepted_idx;
    let s = own_accepted(log_plan::append_entries(s, count));
    for_followers(s, Each::AcceptDecide(from, count))
}

// A proposal, local or forwarded, of `count` given entries.
#[tactic(auto, unfolding(crate::specs::Leader::handle_forwarded_proposal))]
pub fn handle_forwarded_proposal(s: Bounded, count: usize) -> Bounded
    requires count_bound { s.internal_storage.accepted_idx + count ≤ 1024 }
    requires count_bound_2 { s.buffered_proposals + count ≤ 64 }
    ensures { result ≡ handle_forwarded_proposal count s }
{
    match s.inner.state.standing() {
        Standing::LeaderPrepare => log_plan::buffer_proposals(s, count),
        Standing::LeaderAccept => accept_entries_leader(s, count),
        _ => log_plan::forward_proposals(s, count),
    }
}

// The log ends at `end` once `op` is done; promises whose highest decided index passes that are unfit.
fn leader_syncs(s: Bounded, highest: usize, end: usize, op: LogOp) -> Bounded
    requires { end ≤ 1024 }
    ensures { result ≡ leader_syncs highest end op s }
{
    if end < highest {
        return s.refuse_unfit();
    }
    log_plan::sync_log(s, s.inner.leader_state.n_leader, highest, end, op)
}

#[tactic(auto, unfolding(crate::specs::Leader::sync_held, log_plan::specs::Log::sync_unfit, log_plan::specs::Log::ends_past))]
fn sync_held(s: Bounded, x: LogSync, brought: bool, highest: usize) -> Bounded
    ensures { result ≡ sync_held x brought highest s }
{
    let sight = s.inner.plan.sight;
    let (change, op) = if brought {
        (sight.brought_change, LogOp::PutGiven(x))
    } else {
        (sight.held_change, LogOp::PutHeld(x))
    };
    if log_plan::sync_unfit(
        s.inner,
        x,
        change,
        s.inner.leader_state.max_promise.meta.decided_idx,
    ) {
        return s.refuse_unfit();
    }
    leader_syncs(s, highest, x.sync_idx + x.len, op)
}

// The best promise's sync goes on the log, where there is one: the one brought, or the one held.
#[tactic(auto, unfolding(crate::specs::Leader::sync_with_best))]
fn sync_with_best(s: Bounded, brought: bool) -> Bounded
    ensures { result ≡ sync_with_best brought s }
{
    let highest = s.inner.leader_state.get_max_decided_idx(s.inner.config);
    let len = s.inner.internal_storage.accepted_idx;
    match s.inner.leader_state.max_promise.sync {
        Some(x) => sync_held(s, x, brought, highest),
        None => leader_syncs(s, highest, len, LogOp::Keep),
    }
}

fn sync_taken(s: Bounded) -> Bounded
    ensures { result ≡ sync_taken s }
{
    s.set_leader_state(s.inner.leader_state.take_max_promise_sync())
}

#[tactic(auto, unfolding(crate::specs::Leader::handle_majority_promises))]
fn handle_majority_promises(s: Bounded, brought: bool) -> Bounded
    ensures { result ≡ handle_majority_promises brought s }
{
    let s = log_plan::append_buffered(sync_taken(sync_with_best(s, brought)));
    let s = s.set_state(Role::Leader, Phase::Accept);
    for_followers(own_accepted(s), Each::AcceptSync)
}

// The entries of a sync that came with the new best promise are kept in its buffer.
fn keep_sync(s: Bounded, beats: bool, sync: Option<LogSync>) -> Bounded
    ensures { result ≡ keep_sync beats sync s }
{
    if beats {
        return s.set_writes(s.inner.plan.writes.with_best(sync.map(|x| x.len)));
    }
    s
}

#[tactic(auto, unfolding(crate::specs::Leader::handle_promise_prepare))]
fn handle_promise_prepare(s: Bounded, m: PromiseMetaData, sync: Option<LogSync>) -> Bounded
    requires { own_place m.pid }
    ensures { result ≡ handle_promise_prepare m sync s }
{
    let beats = s.inner.leader_state.beats_best(m);
    let kept = s
        .inner
        .leader_state
        .set_promise(m, sync, true, s.inner.config);
    let s = s.set_leader_state(kept.state);
    if kept.reached {
        return handle_majority_promises(s, beats);
    }
    keep_sync(s, beats, sync)
}

#[tactic(auto, unfolding(crate::specs::Leader::handle_promise_accept))]
fn handle_promise_accept(s: Bounded, m: PromiseMetaData) -> Bounded
    requires { own_place m.pid }
    ensures { result ≡ handle_promise_accept m s }
{
    let kept = s
        .inner
        .leader_state
        .set_promise(m, None, false, s.inner.config);
    sends::send_accsync(s.set_leader_state(kept.state), m.pid)
}

// A Promise of ballot n, as its depot's report m, with the sync that it brings.
#[tactic(auto, unfolding(crate::specs::Leader::handle_promise, ballot::specs::Ballot::same, ballot::specs::Ballot::compare_of))]
pub fn handle_promise(s: Bounded, n: Ballot, m: PromiseMetaData, sync: Option<LogSync>) -> Bounded
    requires { own_place m.pid }
    ensures { result ≡ handle_promise n m sync s }
{
    if n != s.inner.leader_state.n_leader {
        return s;
    }
    match s.inner.state.standing() {
        Standing::LeaderPrepare | Standing::LeaderAccept if sync.is_some_and(log_plan::ends_past) =>
            s.refuse_unfit(),
        Standing::LeaderPrepare => handle_promise_prepare(s, m, sync),
        Standing::LeaderAccept => handle_promise_accept(s, m),
        _ => s,
    }
}

#[tactic(auto, unfolding(crate::specs::Leader::decide_if_chosen, crate::specs::Leader::newly_chosen))]
fn decide_if_chosen(s: Bounded, idx: usize) -> Bounded
    ensures { result ≡ decide_if_chosen idx s }
{
    if s.inner.internal_storage.decided_idx < idx
        && s.inner.leader_state.is_chosen(idx, s.inner.config)
    {
        return for_followers(s.set_decided_idx(idx), Each::Decide);
    }
    s
}

#[tactic(auto, unfolding(crate::specs::Leader::accepted_taken))]
fn accepted_taken(s: Bounded, idx: usize, from: u64) -> Bounded
    requires { own_place from }
    ensures { result ≡ accepted_taken idx from s }
{
    if s.inner.internal_storage.accepted_idx < idx {
        return s.refuse_unfit();
    }
    decide_if_chosen(set_accepted_idx(s, from, idx), idx)
}

#[tactic(auto, unfolding(crate::specs::Leader::handle_accepted, ballot::specs::Ballot::same, ballot::specs::Ballot::compare_of))]
pub fn handle_accepted(s: Bounded, n: Ballot, accepted_idx: usize, from: u64) -> Bounded
    requires { own_place from }
    ensures { result ≡ handle_accepted n accepted_idx from s }
{
    if n == s.inner.leader_state.n_leader
        && matches!(s.inner.state.standing(), Standing::LeaderAccept)
    {
        return accepted_taken(s, accepted_idx, from);
    }
    s
}

#[tactic(auto, unfolding(crate::specs::Leader::handle_not_accepted, ballot::specs::Ballot::above, ballot::specs::Ballot::compare_of))]
pub fn handle_notaccepted(s: Bounded, n: Ballot, from: u64) -> Bounded
    requires { own_place from }
    ensures { result ≡ handle_not_accepted n from s }
{
    if s.inner.state.role.is_leader() && n > s.inner.leader_state.n_leader {
        return s.set_leader_state(s.inner.leader_state.lost_promise(from));
    }
    s
}

#[tactic(auto, unfolding(crate::specs::Leader::resend_messages_leader))]
pub fn resend_messages_leader(s: Bounded) -> Bounded
    ensures { result ≡ resend_messages_leader s }
{
    match s.inner.state.phase {
        Phase::Prepare | Phase::Accept => {
            sends::send_each(
                s,
                Each::Prepare,
                s.inner.leader_state.get_preparable_peers(s.inner.config),
            )
        }
        Phase::Recover | Phase::None => s,
    }
}
