// Quorums, the configuration of the depots, and when a configuration stands (util.rs).
#![tactic(auto)]

ghost use Rattle.std.specs.Prelude.{◌≡◌};
ghost use Rattle.quorum.specs.Quorum.{majority_of, with_of, read_size, write_size, reaches_read, reaches_write, stands_of, is_depot, sizes_stand};

use base::{MAX_DEPOTS, MIN_DEPOTS};

#[derive(Clone, Copy, Debug, PartialEq, Eq)]
pub struct FlexibleQuorum {
    pub read_quorum_size: u64,
    pub write_quorum_size: u64,
}

// The size of a majority, or a read and a write size.
#[derive(Clone, Copy, Debug, PartialEq, Eq)]
pub enum Quorum {
    Majority(u64),
    Flexible(FlexibleQuorum),
}

// What every depot of a cluster is told: how many depots there are, its own pid, and the quorums.
// Kept without an invariant: `stands` tells the configurations that do not stand, and C may give one.
#[derive(Clone, Copy, Debug, PartialEq, Eq)]
pub struct Configuration {
    pub depots: u64,
    pub pid: u64,
    pub quorum: Quorum,
}

impl Quorum {
    pub fn with(flexible_quorum_config: Option<FlexibleQuorum>, num_nodes: u64) -> Quorum
        ensures { result ≡ with_of flexible_quorum_config num_nodes }
    {
        match flexible_quorum_config {
            Some(q) => Quorum::Flexible(q),
            None => Quorum::Majority(num_nodes / 2 + 1),
        }
    }

    pub fn read_size(self) -> u64
        ensures { result ≡ read_size self }
    {
        match self {
            Quorum::Majority(majority) => majority,
            Quorum::Flexible(q) => q.read_quorum_size,
        }
    }

    pub fn write_size(self) -> u64
        ensures { result ≡ write_size self }
    {
        match self {
            Quorum::Majority(majority) => majority,
            Quorum::Flexible(q) => q.write_quorum_size,
        }
    }

    #[tactic(auto, unfolding(crate::specs::Quorum::reaches_read))]
    pub fn is_prepare_quorum(self, num_nodes: u64) -> bool
        ensures { result ≡ reaches_read self num_nodes }
    {
        self.read_size() <= num_nodes
    }

    #[tactic(auto, unfolding(crate::specs::Quorum::reaches_write))]
    pub fn is_accept_quorum(self, num_nodes: u64) -> bool
        ensures { result ≡ reaches_write self num_nodes }
    {
        self.write_size() <= num_nodes
    }
}

#[tactic(auto, unfolding(crate::specs::Quorum::is_depot))]
fn in_depots(size: u64, depots: u64) -> bool
    ensures { result ≡ is_depot size depots }
{
    (1..=depots).contains(&size)
}

// Both sizes in range, and together above the depots.
#[tactic(auto, unfolding(crate::specs::Quorum::is_depot, crate::specs::Quorum::sizes_stand))]
fn sizes_stand(read: u64, write: u64, depots: u64) -> bool
    ensures { result ≡ sizes_stand read write depots }
{
    in_depots(read, depots) && in_depots(write, depots) && depots - read < write
}

impl Configuration {
    // Refusal 1's part on numbers: true where it is not given.
    #[tactic(auto, unfolding(crate::specs::Quorum::stands_of))]
    pub fn stands(self) -> bool
        ensures { result ≡ stands_of self }
    {
        (MIN_DEPOTS..=MAX_DEPOTS).contains(&self.depots)
            && self.is_depot(self.pid)
            && sizes_stand(
                self.quorum.read_size(),
                self.quorum.write_size(),
                self.depots,
            )
    }

    // Whether a pid is a depot's: 1 to depots.
    pub fn is_depot(self, pid: u64) -> bool
        ensures { result ≡ is_depot pid self.depots }
    {
        in_depots(pid, self.depots)
    }
}
