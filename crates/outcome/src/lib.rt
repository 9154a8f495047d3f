// What ends a step that was decided: drain and restart, and the refusals that only the outcome shows (sequence_paxos/mod.rs).
#![tactic(auto)]

ghost use Rattle.std.specs.Prelude.{◌≡◌};
ghost use Rattle.base.specs.Refusal.{answer_number};
ghost use Rattle.outcome.specs.Outcome.{drained, restarted, queue_refusal, outcome_refusal, settled, as_decision};

use ballot::Ballot;
use base::{MAX_BUFFERED, MAX_LOG, MAX_MESSAGES, MAX_STORE, Refusal};
use paxos_box::{Bounded, Phase, Role, SequencePaxos};
use sequence::SequenceNumber;

// Every remembered position is forgotten, the Accepted's included.
#[tactic(auto, unfolding(crate::specs::Outcome::drained))]
pub fn take_outgoing_msgs(s: Bounded) -> Bounded
    ensures { result ≡ drained s }
{
    s.set_leader_state(
        s.inner
            .leader_state
            .reset_latest_accept_meta(s.inner.config),
    )
    .set_latest_accepted(None)
}

// Promise, accepted round, log and decided index are kept; all else is as fresh.
#[tactic(auto, unfolding(crate::specs::Outcome::restarted))]
pub fn restart(s: Bounded) -> Bounded
    ensures { result ≡ restarted s }
{
    s.set_state(Role::Follower, Phase::Recover)
        .set_buffered(0)
        .set_leader_state(s.inner.leader_state.with(Ballot::default(), s.inner.config))
        .set_latest_accepted(None)
        .set_current_seq_num(SequenceNumber::default())
        .set_cached(None)
}

#[tactic(auto, unfolding(crate::specs::Outcome::queue_refusal))]
fn queue_refusal(messages: usize, entries: usize) -> Result<(), Refusal>
    ensures { answer_number result ≡ queue_refusal messages entries }
{
    if MAX_MESSAGES < messages || MAX_STORE < entries {
        return Err(Refusal::QueueFull);
    }
    Ok(())
}

// The refusals that the taken step itself shows, in the table's order: 4, 7, 5, 8, 6.
#[tactic(auto, unfolding(crate::specs::Outcome::outcome_refusal))]
fn outcome_refusal(s: Bounded) -> Result<(), Refusal>
    ensures { answer_number result ≡ outcome_refusal s }
{
    if s.inner.plan.unfit {
        return Err(Refusal::Unfit);
    }
    if s.inner.plan.top {
        return Err(Refusal::AtTop);
    }
    if MAX_LOG < s.inner.internal_storage.accepted_idx {
        return Err(Refusal::LogFull);
    }
    if MAX_BUFFERED < s.inner.buffered_proposals {
        return Err(Refusal::BufferFull);
    }
    let messages = s.inner.outgoing.len + s.inner.plan.sends.messages;
    queue_refusal(
        messages,
        s.inner.outgoing.entries + s.inner.plan.sends.entries,
    )
}

// The box as the step leaves it, unless its outcome must be refused: then, with any box `found`, that one stays.
#[tactic(auto, unfolding(crate::specs::Outcome::settled))]
pub fn settle(s: Bounded) -> Result<SequencePaxos, Refusal>
    ensures { (found : _) → as_decision found result ≡ settled found s }
{
    outcome_refusal(s)?;
    Ok(s.inner)
}
