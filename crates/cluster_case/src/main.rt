// Three depots that elect, propose, lose messages, restart and reconnect, and end with equal books.
#![tactic(auto)]

use ballot::Ballot;
use cluster::Cluster;
use messages::Event;
use rounds::{act, drain, settle};
use std::io;

// Pump 7: out on day 10, back on day 14. Pump 9: out on day 20, back on day 27.
const OUT_7: u64 = 5127;

const BACK_7: u64 = 7431;

const OUT_9: u64 = 10_249;

const BACK_9: u64 = 14_089;

// Pump 8 out on day 12, which a depot that leads no more takes and nobody decides.
const OUT_8: u64 = 6152;

// Kept here, as stale_case has its like: one line in each program is no longer than a third function that both would call.
fn give(rt: &impl Print, c: &mut Cluster, pid: u64, entry: u64) -> io::Result<()> {
    act(rt, c, pid, b" is given", Event::Propose, &[entry])
}

fn lead(rt: &impl Print, c: &mut Cluster, round: u32, pid: u64) -> io::Result<()> {
    let n = Ballot {
        n: round,
        priority: 0,
        pid,
    };
    act(rt, c, pid, b" is told to lead", Event::Leader(n), &[])
}

fn tell(rt: &impl Print, c: &mut Cluster, pid: u64, what: &[u8], e: Event) -> io::Result<()> {
    act(rt, c, pid, what, e, &[])
}

fn elect(rt: &impl Print, c: &mut Cluster) -> io::Result<()> {
    println!(rt; "-- Depot 1 is elected with ballot 1.0.1.")?;
    lead(rt, c, 1, 1)?;
    settle(rt, c, 64)
}

fn forward(rt: &impl Print, c: &mut Cluster) -> io::Result<()> {
    println!(rt; "\n-- Depot 2 is given an entry, and forwards it.")?;
    give(rt, c, 2, OUT_7)?;
    settle(rt, c, 64)
}

fn lose(rt: &impl Print, c: &mut Cluster) -> io::Result<()> {
    println!(rt;
        "\n-- What goes to depot 3 is lost; it sees the gap at the next message, and asks to be prepared again."
    )?;
    give(rt, c, 1, BACK_7)?;
    drain(rt, c, 1, Some(3))?;
    settle(rt, c, 64)
}

fn restart(rt: &impl Print, c: &mut Cluster) -> io::Result<()> {
    println!(rt; "\n-- Depot 2 restarts, and reconnects with its leader.")?;
    tell(rt, c, 2, b" restarts", Event::Restart)?;
    tell(rt, c, 2, b" reconnects with depot 1", Event::Reconnect(1))?;
    settle(rt, c, 64)
}

fn part(rt: &impl Print, c: &mut Cluster) -> io::Result<()> {
    println!(rt; "\n-- Depot 3 is elected with ballot 2.0.3; what it sends to depot 1 is lost.")?;
    lead(rt, c, 2, 3)?;
    drain(rt, c, 3, Some(1))?;
    drain(rt, c, 2, None)?;
    drain(rt, c, 3, Some(1))?;
    drain(rt, c, 2, None)
}

fn two_leaders(rt: &impl Print, c: &mut Cluster) -> io::Result<()> {
    println!(rt;
        "\n-- Depot 1 still leads for itself: the entry it takes is not accepted by the others."
    )?;
    give(rt, c, 1, OUT_8)?;
    settle(rt, c, 64)?;
    println!(rt; "\n-- Depot 3 takes an entry, which depots 2 and 3 decide.")?;
    give(rt, c, 3, OUT_9)?;
    settle(rt, c, 64)
}

fn heal(rt: &impl Print, c: &mut Cluster) -> io::Result<()> {
    println!(rt;
        "\n-- Depot 3 resends its Prepare, which reaches depot 1: the entry that nobody decided gives way."
    )?;
    tell(rt, c, 3, b" resends", Event::Resend)?;
    settle(rt, c, 64)?;
    println!(rt; "\n-- Depot 1 restarts, reconnects, and forwards an entry.")?;
    tell(rt, c, 1, b" restarts", Event::Restart)?;
    tell(rt, c, 1, b" reconnects with depot 3", Event::Reconnect(3))?;
    settle(rt, c, 64)?;
    give(rt, c, 1, BACK_9)?;
    settle(rt, c, 64)
}

fn main(rt: HostRuntime) -> io::Result<()> {
    let mut c = Cluster::fresh();
    elect(&rt, &mut c)?;
    forward(&rt, &mut c)?;
    lose(&rt, &mut c)?;
    restart(&rt, &mut c)?;
    part(&rt, &mut c)?;
    two_leaders(&rt, &mut c)?;
    heal(&rt, &mut c)?;
    println!(rt; "")?;
    rounds::say_table(&rt, c)
}
