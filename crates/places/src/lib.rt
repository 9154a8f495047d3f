// Tests over the depots' places of the leader's record: the remembered position, whose the kept promise is, its accepted round.
#![tactic(auto)]

ghost use Rattle.std.specs.Prelude.{ℕ, Bool, ◌≡◌, ◌≤◌};
ghost use Rattle.base.specs.Limits.{max_depots};
ghost use Rattle.leader_state.specs.declared.Depot.{Depot};
ghost use Rattle.places.specs.Places.{Tells, any_place, place_past, misplaced, place_foreign};

use leader_state::{Depot, LeaderState, PromiseState};
use quorum::Configuration;

// Whether some depot's place, 1 to depots, passes the test.
#[tactic(auto, unfolding(hire_book::specs::Below::any_below, crate::specs::Places::any_place))]
fn any_place<F: Fn(u64, Depot) -> bool>(l: LeaderState, depots: u64, test: F) -> bool
    requires depots_le_max_depots { depots ≤ max_depots }
    requires callable { F.IsAlwaysCallable test }
    ensures { (f : ℕ → Depot → Bool) → Tells (F.post test) f depots l → result ≡ any_place f depots l }
{
    for pid in 1..=depots {
        if test(pid, l.get_depot(pid)) {
            return true;
        }
    }
    false
}

// Whether some remembered position is at or past the queue's end.
pub fn any_past(l: LeaderState, depots: u64, len: usize) -> bool
    requires { depots ≤ max_depots }
    ensures { result ≡ any_place (place_past len) depots l }
{
    any_place(l, depots, |_, d| d.latest.is_some_and(|at| len <= at))
}

// Whether some place keeps a promise of another pid.
pub fn any_misplaced(l: LeaderState, depots: u64) -> bool
    requires { depots ≤ max_depots }
    ensures { result ≡ any_place misplaced depots l }
{
    any_place(l, depots, |pid, d| match d.promise {
        PromiseState::Promised(m) => m.pid != pid,
        _ => false,
    })
}

// Whether some kept promise names a nonzero ballot whose pid is no depot.
pub fn any_foreign(l: LeaderState, depots: u64, c: Configuration) -> bool
    requires { depots ≤ max_depots }
    ensures { result ≡ any_place (place_foreign c) depots l }
{
    any_place(l, depots, |_, d| match d.promise {
        PromiseState::Promised(m) => unfit::foreign(c, m.n_accepted),
        _ => false,
    })
}
