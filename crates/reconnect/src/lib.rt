// `reconnected`: a link to a depot came back, or something from it was missed (mod.rs). Each function takes the box and hands it back.
#![tactic(auto)]

ghost use Rattle.std.specs.Prelude.{◌≡◌};
ghost use Rattle.reconnect.specs.Reconnect.{left_leader, reconnected_of, recovering};

use paxos_box::{Bounded, Phase, Role};

pub fn to_recover(s: Bounded) -> Bounded
    ensures { result ≡ recovering s }
{
    s.set_state(Role::Follower, Phase::Recover)
}

#[tactic(auto, unfolding(crate::specs::Reconnect::left_leader))]
fn left_leader(s: Bounded, pid: u64) -> Bounded
    ensures { result ≡ left_leader pid s }
{
    if pid == s.inner.internal_storage.promise.pid {
        to_recover(s)
    } else {
        s
    }
}

#[tactic(auto, unfolding(crate::specs::Reconnect::reconnected_of))]
pub fn reconnected(s: Bounded, pid: u64) -> Bounded
    ensures { result ≡ reconnected_of pid s }
{
    if pid == s.inner.config.pid {
        return s;
    }
    sends::send_preparereq(left_leader(s, pid), pid)
}
