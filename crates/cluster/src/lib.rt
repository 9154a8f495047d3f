// A depot with all that is lent to its steps, by value, and three of them side by side: what the programs that run steps share.
#![tactic(auto)]

ghost use Rattle.std.specs.Prelude.{◌≡◌, true, [], ◌∷◌, ◌<◌};
ghost use Rattle.messages.specs.Messages.{no_head};
ghost use Rattle.cluster.specs.Cluster.{majority, fresh_site, step_site, head_in, receive_site, place_of, site_at, with_site, moved_to, step_at, carried, deliver_at};

use base::{MAX_LOG, MAX_MESSAGES, MAX_STORE};
use hire_book::BOOK;
use messages::{Event, Head, PaxosMessage, PaxosMsg, Row};
use quorum::{Configuration, Quorum};
use record::Record;
use step::Answer;

// A depot: the lists, its configuration, its record and its row of heads.
#[derive(Clone, Copy)]
pub struct Site {
    pub log: [u64; MAX_LOG],
    pub cached: [u64; MAX_LOG],
    pub best: [u64; MAX_LOG],
    pub store: [u64; MAX_STORE],
    pub book: [u64; BOOK],
    pub config: Configuration,
    pub node: Record,
    pub row: Row,
}

// The depots of pid 1, 2 and 3.
#[derive(Clone, Copy)]
pub struct Cluster {
    pub sites: [Site; 3],
}

// What a step answered, and the depot after it.
#[derive(Clone, Copy)]
pub struct Stepped {
    pub answer: Answer,
    pub site: Site,
}

// What a step of one of them answered, and all of them after it.
#[derive(Clone, Copy)]
pub struct Moved {
    pub answer: Answer,
    pub cluster: Cluster,
}

// A configuration with majorities.
pub fn majority(depots: u64, pid: u64) -> Configuration
    ensures { result ≡ majority depots pid }
{
    Configuration {
        depots,
        pid,
        quorum: Quorum::with(None, depots),
    }
}

fn no_head() -> Head
    ensures { result ≡ no_head }
{
    Head {
        to: 0,
        msg: PaxosMsg::ProposalForward,
        start: 0,
        count: 0,
    }
}

fn head_in(row: Row, at: usize) -> Head
    ensures { result ≡ head_in at row }
{
    row.heads.get(at).copied().unwrap_or(no_head())
}

impl Site {
    // A depot that never ran.
    pub fn fresh(config: Configuration) -> Site
        ensures { result ≡ fresh_site config }
    {
        Site {
            log: [0; MAX_LOG],
            cached: [0; MAX_LOG],
            best: [0; MAX_LOG],
            store: [0; MAX_STORE],
            book: [0; BOOK],
            config,
            node: Record::fresh(),
            row: Row {
                heads: [no_head(); MAX_MESSAGES],
            },
        }
    }

    // One step of the depot.
    #[tactic(auto, unfolding(crate::specs::Cluster::step_site))]
    pub fn step(mut self, e: Event, entries: &[u64]) -> Stepped
        ensures { result ≡ step_site e entries.now self }
    {
        let x = own_row::step(
            self.config,
            self.node,
            self.row,
            &mut self.log,
            &mut self.cached,
            &mut self.best,
            &mut self.store,
            &mut self.book,
            e,
            entries,
        );
        self.node = x.node;
        self.row = x.row;
        Stepped {
            answer: x.answer,
            site: self,
        }
    }

    // The head at a place of the row; past its end, none.
    pub fn head(self, at: usize) -> Head
        ensures { result ≡ head_in at self.row }
    {
        head_in(self.row, at)
    }

    // The message of a head of another depot's row arrives, with its entries as they lie in that depot's store.
    #[tactic(auto, unfolding(crate::specs::Cluster::receive_site))]
    pub fn receive(self, from: Site, head: Head) -> Stepped
        ensures { result ≡ receive_site from head self }
    {
        let e = Event::Message(PaxosMessage {
            from: from.config.pid,
            msg: head.msg,
        });
        self.step(e, storage::part(&from.store, head.start, head.count))
    }
}

// Where a depot stands: pid 1 to 3 at 0 to 2; any other pid is read as 1.
fn place(pid: u64) -> usize
    ensures value { result ≡ place_of pid }
    ensures upper_bound { result < 3 }
{
    match pid {
        2 => 1,
        3 => 2,
        _ => 0,
    }
}

impl Cluster {
    // Three depots that never ran.
    pub fn fresh() -> Cluster
        ensures { result ≡ record { sites = fresh_site (majority 3 1) ∷ fresh_site (majority 3 2) ∷ fresh_site (majority 3 3) ∷ [] } }
    {
        Cluster {
            sites: [
                Site::fresh(majority(3, 1)),
                Site::fresh(majority(3, 2)),
                Site::fresh(majority(3, 3)),
            ],
        }
    }

    pub fn site(self, pid: u64) -> Site
        ensures { result ≡ site_at pid self }
    {
        self.sites[place(pid)]
    }

    pub fn with_site(mut self, pid: u64, site: Site) -> Cluster
        ensures { result ≡ with_site pid site self }
    {
        self.sites[place(pid)] = site;
        self
    }

    // One step of one depot; the others stay.
    #[tactic(auto, unfolding(crate::specs::Cluster::step_at))]
    pub fn step(self, pid: u64, e: Event, entries: &[u64]) -> Moved
        ensures { result ≡ step_at pid e entries.now self }
    {
        self.moved(pid, self.site(pid).step(e, entries))
    }

    // A depot after its step.
    fn moved(self, pid: u64, x: Stepped) -> Moved
        ensures { result ≡ moved_to pid x self }
    {
        Moved {
            answer: x.answer,
            cluster: self.with_site(pid, x.site),
        }
    }

    // A message of a depot arrives at its receiver.
    #[tactic(auto, unfolding(crate::specs::Cluster::carried))]
    fn carry(self, from: Site, head: Head) -> Moved
        ensures { result ≡ carried from head self }
    {
        self.moved(head.to, self.site(head.to).receive(from, head))
    }

    // The message at a place of a depot's row arrives at its receiver.
    #[tactic(auto, unfolding(crate::specs::Cluster::deliver_at))]
    pub fn deliver(self, from: u64, at: usize) -> Moved
        ensures { result ≡ deliver_at from at self }
    {
        let sender = self.site(from);
        self.carry(sender, sender.head(at))
    }
}

// Whether two lists are the same, cell by cell.
pub fn same(a: &[u64], b: &[u64]) -> bool
    ensures { (result ≡ true → a.now ≡ b.now) × (a.now ≡ b.now → result ≡ true) }
{
    a == b
}
