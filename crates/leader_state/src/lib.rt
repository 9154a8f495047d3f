// What a leader keeps of each depot, and the best promise (LeaderState of util.rs).
#![tactic(auto)]

ghost use Rattle.std.specs.Prelude.{◌≡◌, ◌-◌, ◌≤◌, ◌<◌, take};
ghost use Rattle.base.specs.Limits.{max_depots, largest};
ghost use Rattle.leader_state.specs.State.{own_place, depot_of, with_depot, set_accepted, set_promise_state, set_latest, next_session, next_counter, fresh, no_best, with_of, forget_all};
ghost use Rattle.leader_state.specs.Promises.{is_promised, decided_state, beats, beats_best, best_after, set_promise_of, take_sync, sync_start, max_decided, promised_count};
ghost use Rattle.leader_state.specs.Places.{accepted_at, chosen, is_preparable, is_follower, is_peer, promised_followers, preparable_peers};

use ballot::Ballot;
use base::MAX_DEPOTS;
use quorum::Configuration;
use sequence::SequenceNumber;
use std::array::from_fn;

// A promise without the log update.
#[derive(Clone, Copy, Debug, PartialEq, Eq, Default)]
pub struct PromiseMetaData {
    pub n_accepted: Ballot,
    pub accepted_idx: usize,
    pub decided_idx: usize,
    pub pid: u64,
}

#[derive(Clone, Copy, Debug, PartialEq, Eq, Default)]
pub enum PromiseState {
    #[default]
    NotPromised,
    Promised(PromiseMetaData),
    PromisedHigher,
}

// One depot's place: its promise, the last number sent to it, its reported accepted index, its remembered AcceptDecide.
#[derive(Clone, Copy, Debug, PartialEq, Eq, Default)]
pub struct Depot {
    pub promise: PromiseState,
    pub seq_num: SequenceNumber,
    pub accepted_idx: usize,
    pub latest: Option<usize>,
}

// A log sync whose entries lie in a lent buffer: where it starts, and how many they are.
// Kept as a length beside a lent buffer: no heap, and the entries are the C caller's memory.
#[derive(Clone, Copy, Debug, PartialEq, Eq)]
pub struct LogSync {
    pub sync_idx: usize,
    pub len: usize,
}

// The best promise and the log sync that came with it.
#[derive(Clone, Copy, Debug, PartialEq, Eq, Default)]
pub struct MaxPromise {
    pub meta: PromiseMetaData,
    pub sync: Option<LogSync>,
}

// The depots of pid 1 up lie at the places 0 up. Places past the configuration's depots are neither read nor changed.
// Kept as a full row with the number of depots elsewhere: no heap, and `KeptPast` says that the rest stays as found.
#[derive(Clone, Copy, Debug, PartialEq, Eq)]
pub struct LeaderState {
    pub n_leader: Ballot,
    pub depots: [Depot; MAX_DEPOTS as usize],
    pub max_promise: MaxPromise,
}

// Kept, and no Option: the state stands whether or not a quorum is reached (`set_promise_of` of specs/).
#[derive(Clone, Copy, Debug, PartialEq, Eq)]
pub struct SetPromise {
    pub state: LeaderState,
    pub reached: bool,
}

// Where the depot of this pid stands in the row.
// Kept as a number with a `requires`, here and in each call on a depot: a pid is what messages and C hand over, tested by the refusals.
fn place(pid: u64) -> usize
    requires { own_place pid }
    ensures { result ≡ pid - 1 }
{
    (pid - 1) as usize
}

impl PromiseState {
    pub fn is_promised(self) -> bool
        ensures { result ≡ is_promised self }
    {
        matches!(self, PromiseState::Promised(_))
    }

    fn decided(self) -> usize
        ensures { result ≡ decided_state self }
    {
        match self {
            PromiseState::Promised(m) => m.decided_idx,
            _ => 0,
        }
    }

    fn is_not_promised(self) -> bool
        ensures { result ≡ is_preparable self }
    {
        matches!(self, PromiseState::NotPromised)
    }
}

impl PromiseMetaData {
    // A higher accepted round, or an equal one and a higher accepted index. A tie beats nothing, so the first stays.
    #[tactic(auto, unfolding(ballot::specs::Ballot::compare_of, crate::specs::Promises::beats))]
    pub fn beats(self, best: PromiseMetaData) -> bool
        ensures { result ≡ beats self best }
    {
        (self.n_accepted, self.accepted_idx) > (best.n_accepted, best.accepted_idx)
    }

    // Where the sync of a depot that reported this starts, for the leader's ballot n and its best promise (send_accsync).
    #[tactic(auto, unfolding(ballot::specs::Ballot::same, ballot::specs::Ballot::compare_of, crate::specs::Promises::sync_start))]
    pub fn sync_start(self, n: Ballot, best: PromiseMetaData) -> usize
        ensures { result ≡ sync_start n best self }
    {
        if self.n_accepted == n {
            self.accepted_idx
        } else if self.n_accepted == best.n_accepted {
            best.accepted_idx.min(self.accepted_idx)
        } else {
            self.decided_idx
        }
    }
}

// Kept beside their derives, here and below: public functions whose promises other crates and pins_rules name.
impl MaxPromise {
    pub fn none() -> MaxPromise
        ensures { result ≡ no_best }
    {
        Default::default()
    }
}

impl Depot {
    pub fn fresh() -> Depot
        ensures { result ≡ fresh }
    {
        Default::default()
    }
}

impl LeaderState {
    // A new leader's record: each depot's place as fresh, no best promise. Places past the depots stay.
    pub fn with(self, n_leader: Ballot, c: Configuration) -> LeaderState
        requires { c.depots ≤ max_depots }
        ensures { result ≡ with_of n_leader c.depots self }
    {
        let mut depots = self.depots;
        depots[..c.depots as usize].fill(Depot::fresh());
        LeaderState {
            n_leader,
            depots,
            max_promise: MaxPromise::none(),
        }
    }

    // A drain forgets every remembered AcceptDecide.
    #[tactic(auto, unfolding(base::specs::Lists::on_first))]
    pub fn reset_latest_accept_meta(self, c: Configuration) -> LeaderState
        requires { c.depots ≤ max_depots }
        ensures { result ≡ forget_all c.depots self }
    {
        let mut depots = self.depots;
        for d in &mut depots[..c.depots as usize] {
            d.latest = None;
        }
        LeaderState { depots, ..self }
    }

    pub fn set_accepted_idx(mut self, pid: u64, idx: usize) -> LeaderState
        requires { own_place pid }
        ensures { result ≡ with_depot pid (set_accepted idx) self }
    {
        self.depots[place(pid)].accepted_idx = idx;
        self
    }

    // The next session of accepts. Its number must not be at the top.
    pub fn increment_seq_num_session(mut self, pid: u64) -> LeaderState
        requires own_place { own_place pid }
        requires seq_num_bound { (depot_of pid self).seq_num.session < largest }
        ensures { result ≡ with_depot pid next_session self }
    {
        let seq_num = &mut self.depots[place(pid)].seq_num;
        *seq_num = SequenceNumber {
            session: seq_num.session + 1,
            counter: 0,
        };
        self
    }

    // The next counter of a session, which must not be at the top.
    pub fn next_seq_num(mut self, pid: u64) -> LeaderState
        requires own_place { own_place pid }
        requires seq_num_bound { (depot_of pid self).seq_num.counter < largest }
        ensures { result ≡ with_depot pid next_counter self }
    {
        self.depots[place(pid)].seq_num.counter += 1;
        self
    }

    pub fn set_latest_accept_meta(mut self, pid: u64, latest: Option<usize>) -> LeaderState
        requires { own_place pid }
        ensures { result ≡ with_depot pid (set_latest latest) self }
    {
        self.depots[place(pid)].latest = latest;
        self
    }

    fn put_promise(mut self, pid: u64, promise: PromiseState) -> LeaderState
        requires { own_place pid }
        ensures { result ≡ with_depot pid (set_promise_state promise) self }
    {
        self.depots[place(pid)].promise = promise;
        self
    }

    pub fn reset_promise(self, pid: u64) -> LeaderState
        requires { own_place pid }
        ensures { result ≡ with_depot pid (set_promise_state PromiseState.NotPromised) self }
    {
        self.put_promise(pid, PromiseState::NotPromised)
    }

    // The depot was seen with a ballot above the leader's.
    pub fn lost_promise(self, pid: u64) -> LeaderState
        requires { own_place pid }
        ensures { result ≡ with_depot pid (set_promise_state PromiseState.PromisedHigher) self }
    {
        self.put_promise(pid, PromiseState::PromisedHigher)
    }

    // What a depot's place holds.
    pub fn get_depot(self, pid: u64) -> Depot
        requires { own_place pid }
        ensures { result ≡ depot_of pid self }
    {
        self.depots[place(pid)]
    }

    pub fn get_seq_num(self, pid: u64) -> SequenceNumber
        requires { own_place pid }
        ensures { result ≡ (depot_of pid self).seq_num }
    {
        self.depots[place(pid)].seq_num
    }

    pub fn get_promise_meta(self, pid: u64) -> PromiseState
        requires { own_place pid }
        ensures { result ≡ (depot_of pid self).promise }
    {
        self.depots[place(pid)].promise
    }

    pub fn get_latest_accept_meta(self, pid: u64) -> Option<usize>
        requires { own_place pid }
        ensures { result ≡ (depot_of pid self).latest }
    {
        self.depots[place(pid)].latest
    }

    // Whether a promise beats the best so far.
    pub fn beats_best(self, m: PromiseMetaData) -> bool
        ensures { result ≡ beats_best m self }
    {
        m.beats(self.max_promise.meta)
    }

    fn best_after(
        self,
        m: PromiseMetaData,
        sync: Option<LogSync>,
        check_max_prom: bool,
    ) -> MaxPromise
        ensures { result ≡ best_after m sync check_max_prom self }
    {
        if check_max_prom && self.beats_best(m) {
            MaxPromise { meta: m, sync }
        } else {
            self.max_promise
        }
    }

    // The promise is kept at its depot's place and, where `check_max_prom` is set and it beats the best, becomes the best with its sync.
    // Told as well: whether a read quorum has promised.
    // Kept: `check_max_prom` is a parameter of the Rust's, and `set_promise_of` takes it.
    pub fn set_promise(
        self,
        m: PromiseMetaData,
        sync: Option<LogSync>,
        check_max_prom: bool,
        c: Configuration,
    ) -> SetPromise
        requires own_place { own_place m.pid }
        requires depots_le_max_depots { c.depots ≤ max_depots }
        ensures { result ≡ set_promise_of c m sync check_max_prom self }
    {
        let max_promise = self.best_after(m, sync, check_max_prom);
        let mut state = self.put_promise(m.pid, PromiseState::Promised(m));
        state.max_promise = max_promise;
        let reached = c.quorum.is_prepare_quorum(state.count_promised(c));
        SetPromise { state, reached }
    }

    // The held sync is taken out; the best promise stays.
    pub fn take_max_promise_sync(mut self) -> LeaderState
        ensures { result ≡ take_sync self }
    {
        self.max_promise.sync = None;
        self
    }

    // The places of the depots.
    fn row(&self, c: Configuration) -> &[Depot]
        requires { c.depots ≤ max_depots }
        ensures { result.now ≡ take c.depots self.now.depots }
    {
        &self.depots[..c.depots as usize]
    }

    fn count_promised(&self, c: Configuration) -> u64
        requires { c.depots ≤ max_depots }
        ensures { result ≡ promised_count c.depots self.now }
    {
        self.row(c)
            .iter()
            .filter(|d| d.promise.is_promised())
            .count() as u64
    }

    // The highest decided index of the promises that stand, 0 where none does.
    pub fn get_max_decided_idx(self, c: Configuration) -> usize
        requires { c.depots ≤ max_depots }
        ensures { result ≡ max_decided c.depots self }
    {
        self.row(c)
            .iter()
            .map(|d| d.promise.decided())
            .max()
            .unwrap_or(0)
    }

    fn count_accepted(&self, idx: usize, c: Configuration) -> u64
        requires { c.depots ≤ max_depots }
        ensures { result ≡ accepted_at idx c.depots self.now }
    {
        self.row(c).iter().filter(|d| idx <= d.accepted_idx).count() as u64
    }

    // Whether a write quorum of depots has reported an accepted index of at least idx.
    pub fn is_chosen(self, idx: usize, c: Configuration) -> bool
        requires { c.depots ≤ max_depots }
        ensures { result ≡ chosen idx c self }
    {
        c.quorum.is_accept_quorum(self.count_accepted(idx, c))
    }

    // A depot that promised this leader and is not the leader itself.
    #[tactic(auto, unfolding(crate::specs::Places::is_follower))]
    fn is_promised_follower(&self, pid: u64) -> bool
        requires { own_place pid }
        ensures { result ≡ is_follower pid self.now }
    {
        pid != self.n_leader.pid && self.depots[place(pid)].promise.is_promised()
    }

    // A mark for each place: the depot there is a promised follower.
    pub fn get_promised_followers(self, c: Configuration) -> [bool; MAX_DEPOTS as usize]
        requires { c.depots ≤ max_depots }
        ensures { result ≡ promised_followers c.depots self }
    {
        from_fn(|i| (i as u64) < c.depots && self.is_promised_follower(i as u64 + 1))
    }

    // Another depot that has not promised, this leader or a higher one.
    #[tactic(auto, unfolding(crate::specs::Places::is_peer))]
    fn is_preparable_peer(&self, pid: u64, own: u64) -> bool
        requires { own_place pid }
        ensures { result ≡ is_peer own pid self.now }
    {
        pid != own && self.depots[place(pid)].promise.is_not_promised()
    }

    // A mark for each place: the depot there is another one and has not promised, neither this leader nor a higher one.
    pub fn get_preparable_peers(self, c: Configuration) -> [bool; MAX_DEPOTS as usize]
        requires { c.depots ≤ max_depots }
        ensures { result ≡ preparable_peers c.pid c.depots self }
    {
        from_fn(|i| (i as u64) < c.depots && self.is_preparable_peer(i as u64 + 1, c.pid))
    }
}
