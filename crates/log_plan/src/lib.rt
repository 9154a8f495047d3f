// What a step decides about the log and the buffered proposals: a sync put on, entries appended, proposals forwarded or buffered (storage/, mod.rs).
#![tactic(auto)]

ghost use Rattle.std.specs.Prelude.{◌≡◌, ◌+◌, ◌≤◌};
ghost use Rattle.log_plan.specs.Log.{ends_past, sync_unfit, sync_log, append_given, kept_of, append_buffered, buffer_given, has_leader, push_forward, forward_proposals, forward_buffered};

use ballot::Ballot;
use base::MAX_LOG;
use leader_state::LogSync;
use messages::PaxosMsg;
use paxos_box::{Bounded, InternalStorage, LogOp, SequencePaxos, Source};

// A sync that ends past the log's limit.
#[tactic(auto, unfolding(crate::specs::Log::ends_past))]
pub fn ends_past(x: LogSync) -> bool
    ensures { result ≡ ends_past x }
{
    MAX_LOG < x.sync_idx || MAX_LOG - x.sync_idx < x.len
}

// A sync that may not be put on this log: it ends past the limit, starts past that log, changes a place below the own decided index, or
// ends below that index or the decided index it brings. `change` is the first place that it changes.
#[tactic(auto, unfolding(crate::specs::Log::sync_unfit, crate::specs::Log::put_unfit))]
pub fn sync_unfit(s: SequencePaxos, x: LogSync, change: usize, brings: usize) -> bool
    ensures { result ≡ sync_unfit x change brings s }
{
    if ends_past(x) {
        return true;
    }
    let end = x.sync_idx + x.len;
    let decided = s.internal_storage.decided_idx;
    s.internal_storage.accepted_idx < x.sync_idx
        || change < decided
        || end < decided
        || end < brings
}

// The accepted round becomes the given ballot, the decided index rises to the given one, and the log ends at `end`: with a sync, which
// `op` puts on, or without.
#[tactic(auto, unfolding(crate::specs::Log::sync_log))]
pub fn sync_log(s: Bounded, n: Ballot, decided: usize, end: usize, op: LogOp) -> Bounded
    requires { end ≤ 1024 }
    ensures { result ≡ sync_log n decided end op s }
{
    let found = s.inner.internal_storage;
    s.set_storage(InternalStorage {
        accepted_round: n,
        decided_idx: found.decided_idx.max(decided),
        accepted_idx: end,
        ..found
    })
    .set_writes(s.inner.plan.writes.with_log(op))
}

// The given entries join the log's end.
#[tactic(auto, unfolding(crate::specs::Log::append_given))]
pub fn append_entries(s: Bounded, count: usize) -> Bounded
    requires { s.internal_storage.accepted_idx + count ≤ 1024 }
    ensures { result ≡ append_given count s }
{
    s.set_length(s.inner.internal_storage.accepted_idx + count)
        .set_writes(s.inner.plan.writes.with_log(LogOp::Append(count)))
}

#[tactic(auto, unfolding(crate::specs::Log::kept_of))]
fn kept(waiting: usize, len: usize) -> usize
    ensures value { result ≡ kept_of waiting len }
    ensures upper_bound { result ≤ waiting }
    ensures fits { len ≤ 1024 → len + result ≤ 1024 }
{
    waiting.min(MAX_LOG.saturating_sub(len))
}

// Buffered proposals join the log's end; those past its limit are dropped from the end.
#[tactic(auto, unfolding(crate::specs::Log::append_buffered))]
pub fn append_buffered(s: Bounded) -> Bounded
    ensures { result ≡ append_buffered s }
{
    let len = s.inner.internal_storage.accepted_idx;
    let waiting = s.inner.buffered_proposals;
    let n = kept(waiting, len);
    s.set_length(len + n)
        .set_buffered(0)
        .set_writes(s.inner.plan.writes.with_buffered(n, waiting - n))
}

// The given entries join the buffered proposals.
#[tactic(auto, unfolding(crate::specs::Log::buffer_given))]
pub fn buffer_proposals(s: Bounded, count: usize) -> Bounded
    requires { s.buffered_proposals + count ≤ 64 }
    ensures { result ≡ buffer_given count s }
{
    s.set_buffered(s.inner.buffered_proposals + count)
        .set_writes(s.inner.plan.writes.with_buffer(Some(count)))
}

// The promise names another depot.
#[tactic(auto, unfolding(crate::specs::Log::has_leader))]
fn has_leader(s: SequencePaxos) -> bool
    ensures { result ≡ has_leader s }
{
    let pid = s.internal_storage.promise.pid;
    pid != 0 && pid != s.config.pid
}

fn push_forward(s: Bounded, source: Source, count: usize) -> Bounded
    requires { count ≤ 1024 }
    ensures { result ≡ push_forward source count s }
{
    let to = s.inner.internal_storage.promise.pid;
    s.send_new(to, PaxosMsg::ProposalForward, source, count)
}

// The given entries go to the promise's pid; if that is 0 or oneself, they are buffered.
#[tactic(auto, unfolding(crate::specs::Log::forward_proposals))]
pub fn forward_proposals(s: Bounded, count: usize) -> Bounded
    requires count_bound { count ≤ 1024 }
    requires count_bound_2 { s.buffered_proposals + count ≤ 64 }
    ensures { result ≡ forward_proposals count s }
{
    if has_leader(s.inner) {
        push_forward(s, Source::Given, count)
    } else {
        buffer_proposals(s, count)
    }
}

// The buffered proposals, if any, go to the promise's pid; if that is 0 or oneself, they stay.
#[tactic(auto, unfolding(crate::specs::Log::forward_buffered))]
pub fn forward_buffered_proposals(s: Bounded) -> Bounded
    ensures { result ≡ forward_buffered s }
{
    let waiting = s.inner.buffered_proposals;
    if waiting == 0 || !has_leader(s.inner) {
        return s;
    }
    push_forward(s.set_buffered(0), Source::Buffered, waiting)
}
