// The dispatch of a step to its handlers (sequence_paxos/mod.rs); `outcome` settles what they leave.
#![tactic(auto)]

ghost use Rattle.std.specs.Prelude.{◌≡◌};
ghost use Rattle.leader_state.specs.State.{own_place};
ghost use Rattle.follower.specs.Follower.{few_cached};
ghost use Rattle.outcome.specs.Outcome.{as_decision};
ghost use Rattle.sequence_paxos.specs.Decide.{brought_by, handle, resend_by, taken, decide_of};
ghost use Rattle.sequence_paxos.specs.Fit.{Sound, few_in, fit_event};

use base::Refusal;
use leader_state::{LogSync, PromiseMetaData};
use messages::{Event, PaxosMessage, PaxosMsg, Promise};
use paxos_box::{Bounded, Role, SequencePaxos};

fn brought_by(sync: Option<usize>, count: usize) -> Option<LogSync>
    ensures { result ≡ brought_by sync count }
{
    sync.map(|sync_idx| LogSync {
        sync_idx,
        len: count,
    })
}

fn promise_arrives(s: Bounded, p: Promise, count: usize, from: u64) -> Bounded
    requires { own_place from }
    ensures { result ≡ handle (PaxosMsg.Promise p) count from s }
{
    let m = PromiseMetaData {
        n_accepted: p.n_accepted,
        accepted_idx: p.accepted_idx,
        decided_idx: p.decided_idx,
        pid: from,
    };
    leader::handle_promise(s, p.n, m, brought_by(p.log_sync, count))
}

// A message arrives from a depot, with `count` entries.
fn handle(s: Bounded, m: PaxosMsg, count: usize, from: u64) -> Bounded
    requires sound { Sound s }
    requires own_place { own_place from }
    requires few_in { few_in m count }
    ensures { result ≡ handle m count from s }
{
    match m {
        PaxosMsg::PrepareReq(x) => leader::handle_preparereq(s, x.n, from),
        PaxosMsg::Prepare(x) => follower::handle_prepare(s, x, from),
        PaxosMsg::Promise(x) => promise_arrives(s, x, count, from),
        PaxosMsg::AcceptSync(x) => accepting::handle_acceptsync(s, x, count, from),
        PaxosMsg::AcceptDecide(x) => accepting::handle_acceptdecide(s, x, count),
        PaxosMsg::Accepted(x) => leader::handle_accepted(s, x.n, x.accepted_idx, from),
        PaxosMsg::NotAccepted(x) => leader::handle_notaccepted(s, x.n, from),
        PaxosMsg::Decide(x) => accepting::handle_decide(s, x),
        PaxosMsg::ProposalForward => leader::handle_forwarded_proposal(s, count),
    }
}

fn resend_message_timeout(s: Bounded) -> Bounded
    requires { Sound s }
    ensures { result ≡ resend_by s.state.role s }
{
    match s.inner.state.role {
        Role::Leader => leader::resend_messages_leader(s),
        Role::Follower => follower::resend_messages_follower(s),
    }
}

// What the step would do, were nothing refused.
fn take(s: Bounded, e: Event, count: usize) -> Bounded
    requires sound { Sound s }
    requires fit_event { fit_event e count }
    ensures { result ≡ taken e count s }
{
    match e {
        Event::Message(m) => handle(s, m.msg, count, m.from),
        Event::Propose => leader::handle_forwarded_proposal(s, count),
        Event::Leader(n) => leader::handle_leader(s, n),
        Event::Reconnect(pid) => reconnect::reconnected(s, pid),
        Event::Resend => resend_message_timeout(s),
        Event::Drain => outcome::take_outgoing_msgs(s),
        Event::Restart => outcome::restart(s),
    }
}

// What a step decides, once refusals 1, 2, 3 and the unconditional 4 are past: the box as the step leaves it, or a refusal.
pub fn decide(s: SequencePaxos, e: Event, count: usize) -> Result<SequencePaxos, Refusal>
    requires sound { Sound s }
    requires fit_event { fit_event e count }
    ensures { as_decision s result ≡ decide_of e count s }
{
    outcome::settle(take(Bounded { inner: s }, e, count))
}
