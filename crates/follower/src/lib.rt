// What a follower does with a Prepare, and its resend (follower.rs). Each function takes the box and hands it back.
#![tactic(auto)]

ghost use Rattle.std.specs.Prelude.{◌≡◌, ◌≤◌};
ghost use Rattle.follower.specs.Follower.{promised_sync, start_of, count_of, log_source, cached_source, build_fits, promise_of, send_promise, cache_promise, tell_promise, promise_to, prepare_taken, handle_prepare, prepare_reqs, few_cached, resend_messages_follower};

use ballot::Ballot;
use leader_state::LogSync;
use messages::{PaxosMsg, Prepare, Promise};
use paxos_box::{Bounded, CachedPromise, Phase, Role, SequencePaxos, Source};
use sends::Each;
use sequence::SequenceNumber;

// What the leader is missing: after its decided index where the own round is higher, after its accepted index in the same round.
#[tactic(auto, unfolding(crate::specs::Follower::promised_sync, ballot::specs::Ballot::above, ballot::specs::Ballot::same, ballot::specs::Ballot::compare_of))]
fn promised_sync(s: Bounded, prep: Prepare) -> Option<LogSync>
    ensures value { result ≡ promised_sync prep s }
    ensures result_bound { count_of result ≤ 1024 }
{
    let own = s.inner.internal_storage;
    let start = if own.accepted_round > prep.n_accepted {
        prep.decided_idx
    } else if own.accepted_round == prep.n_accepted && prep.accepted_idx < own.accepted_idx {
        prep.accepted_idx
    } else {
        return None;
    };
    Some(LogSync {
        sync_idx: start,
        len: sends::suffix_length(own.accepted_idx, start),
    })
}

fn start_of(sync: Option<LogSync>) -> Option<usize>
    ensures { result ≡ start_of sync }
{
    sync.map(|x| x.sync_idx)
}

fn count_of(sync: Option<LogSync>) -> usize
    ensures { result ≡ count_of sync }
{
    sync.map_or(0, |x| x.len)
}

fn log_source(sync: Option<LogSync>) -> Source
    ensures { result ≡ log_source sync }
{
    sync.map_or(Source::Nothing, |x| Source::Log(x.sync_idx))
}

fn cached_source(sync: Option<LogSync>) -> Source
    ensures { result ≡ cached_source sync }
{
    sync.map_or(Source::Nothing, |_| Source::Cached)
}

fn build_fits(s: Bounded, sync: Option<LogSync>) -> Bounded
    ensures { result ≡ build_fits sync s }
{
    match sync {
        Some(x) => sends::check_log_sync(s, x.sync_idx),
        None => s,
    }
}

fn promise_of(s: SequencePaxos, sync: Option<LogSync>) -> CachedPromise
    ensures { result ≡ promise_of sync s }
{
    let t = s.internal_storage;
    CachedPromise {
        n: t.promise,
        n_accepted: t.accepted_round,
        decided_idx: t.decided_idx,
        accepted_idx: t.accepted_idx,
        sync,
    }
}

fn send_promise(s: Bounded, to: u64, p: CachedPromise, source: Source) -> Bounded
    requires { count_of p.sync ≤ 1024 }
    ensures { result ≡ send_promise to p source s }
{
    let promise = Promise {
        n: p.n,
        n_accepted: p.n_accepted,
        decided_idx: p.decided_idx,
        accepted_idx: p.accepted_idx,
        log_sync: start_of(p.sync),
    };
    s.send_new(to, PaxosMsg::Promise(promise), source, count_of(p.sync))
}

#[tactic(auto, unfolding(crate::specs::Follower::cache_promise))]
fn cache_promise(s: Bounded, sync: Option<LogSync>) -> Bounded
    ensures { result ≡ cache_promise sync s }
{
    s.set_cached(Some(promise_of(s.inner, sync)))
        .set_writes(s.inner.plan.writes.with_cached(sync))
}

#[tactic(auto, unfolding(crate::specs::Follower::tell_promise))]
fn tell_promise(s: Bounded, from: u64, sync: Option<LogSync>) -> Bounded
    requires { count_of sync ≤ 1024 }
    ensures { result ≡ tell_promise from sync s }
{
    let p = promise_of(s.inner, sync);
    let s = cache_promise(build_fits(s, sync), sync);
    send_promise(s, from, p, log_source(sync))
}

#[tactic(auto, unfolding(crate::specs::Follower::promise_to))]
fn promise_to(s: Bounded, n: Ballot) -> Bounded
    ensures { result ≡ promise_to n s }
{
    s.set_promise(n)
        .set_state(Role::Follower, Phase::Prepare)
        .set_current_seq_num(SequenceNumber::default())
}

#[tactic(auto, unfolding(crate::specs::Follower::prepare_taken))]
fn prepare_taken(s: Bounded, prep: Prepare, from: u64) -> Bounded
    ensures { result ≡ prepare_taken prep from s }
{
    let sync = promised_sync(s, prep);
    tell_promise(promise_to(s, prep.n), from, sync)
}

#[tactic(auto, unfolding(crate::specs::Follower::handle_prepare, ballot::specs::Ballot::above, ballot::specs::Ballot::same, ballot::specs::Ballot::compare_of))]
pub fn handle_prepare(s: Bounded, prep: Prepare, from: u64) -> Bounded
    ensures { result ≡ handle_prepare prep from s }
{
    let own = s.inner.internal_storage.promise;
    if prep.n > own || prep.n == own && s.inner.state.phase.is_recover() {
        return prepare_taken(s, prep, from);
    }
    s
}

fn send_preparereq_to_all_peers(s: Bounded) -> Bounded
    ensures { result ≡ prepare_reqs s }
{
    sends::send_each(s, Each::PrepareReq, sends::peers(s.inner.config))
}

// The cached promise is resent where its sync has few entries: an unbroken record's has 512 at most.
#[tactic(auto, unfolding(crate::specs::Follower::resend_messages_follower))]
pub fn resend_messages_follower(s: Bounded) -> Bounded
    requires { few_cached s.cached_promise_message }
    ensures { result ≡ resend_messages_follower s }
{
    match s.inner.state.phase {
        Phase::Prepare => match s.inner.cached_promise_message {
            Some(p) => send_promise(s, p.n.pid, p, cached_source(p.sync)),
            None => send_preparereq_to_all_peers(reconnect::to_recover(s)),
        },
        Phase::Recover => send_preparereq_to_all_peers(s),
        Phase::Accept | Phase::None => s,
    }
}
