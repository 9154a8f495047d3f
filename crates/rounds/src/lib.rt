// Three depots at work, told in words: a step, a drain with its deliveries and losses, drains until all queues are empty, and a table of the depots.
#![tactic(auto)]

ghost use Rattle.std.specs.Prelude.{◌≡◌};
ghost use Rattle.hire_book.specs.Step.{total_step};
ghost use Rattle.cluster.specs.Cluster.{step_at};
ghost use Rattle.rounds.specs.Drains.{is_lost, carry_at, drained, waits_at, next_sender, settled};

use cluster::{Cluster, Site};
use messages::{Event, Head};
use std::io;
use telling::{say, say_answer, say_ballot, say_entries, say_message, say_number, say_state};

// A message of a depot's row, with its entries.
pub fn say_head(rt: &impl Print, from: Site, head: Head) -> io::Result<()> {
    say_number(rt, b"  ", from.config.pid)?;
    say_number(rt, b" to ", head.to)?;
    say(rt, b": ")?;
    say_message(rt, head.msg)?;
    say_entries(rt, storage::part(&from.store, head.start, head.count))
}

fn say_act(rt: &impl Print, pid: u64, what: &[u8], entries: &[u64], no: u32) -> io::Result<()> {
    print!(rt; "depot {pid}")?;
    say(rt, what)?;
    say_entries(rt, entries)?;
    say_answer(rt, no)?;
    println!(rt; "")
}

// One step of a depot, told in words. It is taken whether or not the words could be written.
pub fn act(
    rt: &impl Print,
    c: &mut Cluster,
    pid: u64,
    what: &[u8],
    e: Event,
    entries: &[u64],
) -> io::Result<()>
    ensures { c.new ≡ (step_at pid e entries.now c.old).cluster }
{
    let m = c.step(pid, e, entries);
    *c = m.cluster;
    say_act(rt, pid, what, entries, m.answer.no)
}

fn say_lost(rt: &impl Print, sender: Site, head: Head) -> io::Result<()> {
    say_head(rt, sender, head)?;
    println!(rt; ": LOST")
}

fn say_brought(rt: &impl Print, sender: Site, head: Head, no: u32) -> io::Result<()> {
    say_head(rt, sender, head)?;
    say_answer(rt, no)?;
    println!(rt; "")
}

// Whether a message to a depot is lost: the lost ones go to one depot or, where none is to be lost, to pid 0, which is nobody's.
fn is_lost(lost: Option<u64>, to: u64) -> bool
    ensures { result ≡ is_lost lost to }
{
    to == lost.unwrap_or(0)
}

// The message at a place of a depot's row arrives, or is lost where it goes to the depot `lost`.
#[tactic(auto, unfolding(crate::specs::Drains::carry_at))]
fn carry(
    rt: &impl Print,
    c: &mut Cluster,
    from: u64,
    at: usize,
    lost: Option<u64>,
) -> io::Result<()>
    ensures { c.new ≡ carry_at from lost at c.old }
{
    let sender = c.site(from);
    let head = sender.head(at);
    if is_lost(lost, head.to) {
        return say_lost(rt, sender, head);
    }
    let m = c.deliver(from, at);
    *c = m.cluster;
    say_brought(rt, sender, head, m.answer.no)
}

// A depot's queue is drained, and each message arrives in order, but those to the depot `lost`, if one is named. What cannot be written stops nothing: the first
// failure is answered at the end.
#[tactic(auto, unfolding(crate::specs::Drains::carry_below, crate::specs::Drains::drained))]
pub fn drain(rt: &impl Print, c: &mut Cluster, from: u64, lost: Option<u64>) -> io::Result<()>
    ensures { c.new ≡ drained from lost c.old }
{
    let m = c.step(from, Event::Drain, &[]);
    *c = m.cluster;
    let mut told = Ok(());
    for at in 0..m.answer.handed_out {
        told = told.and(carry(rt, c, from, at, lost));
    }
    told
}

// The messages that wait in a depot's queue.
pub fn say_queue(rt: &impl Print, s: Site) -> io::Result<()> {
    println!(rt; "waiting at depot {}:", s.config.pid)?;
    for at in 0..s.node.outgoing {
        say_head(rt, s, s.head(at))?;
        println!(rt; "")?;
    }
    Ok(())
}

#[tactic(auto, unfolding(crate::specs::Drains::waits_at))]
fn waits(c: &Cluster, pid: u64) -> bool
    ensures { result ≡ waits_at pid c.now }
{
    c.site(pid).node.outgoing != 0
}

// The first depot whose queue is not empty.
#[tactic(auto, unfolding(crate::specs::Drains::next_sender))]
fn next_sender(c: &Cluster) -> Option<u64>
    ensures { result ≡ next_sender c.now }
{
    (1..=3).find(|pid| waits(c, *pid))
}

// Queues are drained and messages arrive until all queues are empty, or so many drains were made; as in `drain`, what cannot be written stops nothing.
#[tactic(auto, unfolding(crate::specs::Drains::settled))]
pub fn settle(rt: &impl Print, c: &mut Cluster, drains: u64) -> io::Result<()>
    ensures { c.new ≡ settled drains c.old }
{
    let mut told = Ok(());
    for _ in 0..drains {
        let Some(from) = next_sender(c) else {
            return told;
        };
        told = told.and(drain(rt, c, from, None));
    }
    told
}

// The stored days of a book; 0 where it is refused.
pub fn total_of(book: [u64; hire_book::BOOK]) -> u64
    ensures { result ≡ (total_step book).days }
{
    hire_book::total_days(&book).unwrap_or(0)
}

// A line of the table: what a depot promised and holds.
fn say_site(rt: &impl Print, s: &Site) -> io::Result<()> {
    let kept = s.node.internal_storage;
    print!(rt; "depot {}: ", s.config.pid)?;
    say_state(rt, s.node.state)?;
    say_ballot(rt, b", promise ", kept.promise)?;
    println!(rt;
        ", log {}, decided {}, days {}",
        kept.accepted_idx,
        kept.decided_idx,
        total_of(s.book)
    )
}

// The table of the three depots, and whether their books are equal.
pub fn say_table(rt: &impl Print, c: Cluster) -> io::Result<()> {
    for s in &c.sites {
        say_site(rt, s)?;
    }
    let [first, second, third] = &c.sites;
    if first.book == second.book && first.book == third.book {
        return println!(rt; "the books are equal");
    }
    println!(rt; "the books differ")
}
