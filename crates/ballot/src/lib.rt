// Ballots and their order (ballot_leader_election.rs).
#![tactic(auto)]

ghost use Rattle.std.specs.Prelude.{◌≡◌};
ghost use Rattle.ballot.specs.Ballot.{compare_of, same, above, is_default, default};

use std::cmp::Ordering;

// (round, priority, pid), compared in that order; all zero is the default.
#[derive(Clone, Copy, Debug, PartialEq, Eq, PartialOrd, Ord, Default)]
pub struct Ballot {
    pub n: u32,
    pub priority: u32,
    pub pid: u64,
}

// Kept: public functions, pinned by pins_rules; each promises that a derived one is the definition in specs/, and must-fail/priority_last is refused there.
impl Ballot {
    pub fn default() -> Ballot
        ensures { result ≡ default }
    {
        Default::default()
    }

    #[tactic(auto, unfolding(crate::specs::Ballot::compare_of))]
    pub fn compare(self, other: Ballot) -> Ordering
        ensures { result ≡ compare_of self other }
    {
        self.cmp(&other)
    }

    #[tactic(auto, unfolding(crate::specs::Ballot::same, crate::specs::Ballot::compare_of))]
    pub fn same(self, other: Ballot) -> bool
        ensures { result ≡ same self other }
    {
        self == other
    }

    #[tactic(auto, unfolding(crate::specs::Ballot::above, crate::specs::Ballot::compare_of))]
    pub fn above(self, other: Ballot) -> bool
        ensures { result ≡ above self other }
    {
        self > other
    }

    #[tactic(auto, unfolding(crate::specs::Ballot::is_default))]
    pub fn is_default(self) -> bool
        ensures { result ≡ is_default self }
    {
        self == Ballot::default()
    }
}
