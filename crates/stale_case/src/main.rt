// The stale case (document 01, "Errors that look reasonable"), step by step: where the old rule leads, and where the new one does.
#![tactic(auto)]

use ballot::Ballot;
use cluster::Cluster;
use messages::Event;
use rounds::{act, drain, settle};
use std::io;

// Pump 7: out on day 10, back on day 14, out on day 33, back on day 35.
const OUT_10: u64 = 5127;

const BACK_14: u64 = 7431;

const OUT_33: u64 = 16_903;

const BACK_35: u64 = 18_183;

fn lead(rt: &impl Print, c: &mut Cluster) -> io::Result<()> {
    let n = Ballot {
        n: 1,
        priority: 0,
        pid: 1,
    };
    act(
        rt,
        c,
        1,
        b" is told to lead with 1.0.1",
        Event::Leader(n),
        &[],
    )?;
    drain(rt, c, 1, None)?;
    drain(rt, c, 2, None)?;
    drain(rt, c, 3, None)
}

// Kept here, as cluster_case has its like: one line in each program is no longer than a third function that both would call.
fn propose(rt: &impl Print, c: &mut Cluster, entry: u64) -> io::Result<()> {
    act(rt, c, 1, b" is given", Event::Propose, &[entry])
}

// The AcceptSync of session 1 to depot 3 is lost, and the AcceptDecide of the first entry waits.
fn lose_session_1(rt: &impl Print, c: &mut Cluster) -> io::Result<()> {
    println!(rt; "\n-- The AcceptSync of session 1 to depot 3 is lost.")?;
    drain(rt, c, 1, Some(3))?;
    drain(rt, c, 2, None)?;
    println!(rt;
        "\n-- The first entry: an AcceptDecide of session 1 to depot 3 waits in the queue, and its position is remembered."
    )?;
    propose(rt, c, OUT_10)?;
    rounds::say_queue(rt, c.site(1))
}

fn resend_promise(rt: &impl Print, c: &mut Cluster) -> io::Result<()> {
    println!(rt; "\n-- Depot 3 resends its Promise, which draws an AcceptSync of session 2.")?;
    act(rt, c, 3, b" resends", Event::Resend, &[])?;
    drain(rt, c, 3, None)?;
    rounds::say_queue(rt, c.site(1))
}

// What the old rule leaves: depot 1 still remembers the AcceptDecide to depot 3 that stands at place 1 of its queue.
fn remembered(c: Cluster) -> Cluster {
    let mut s = c.site(1);
    s.node.leader_state = s.node.leader_state.set_latest_accept_meta(3, Some(1));
    c.with_site(1, s)
}

fn second_entry(rt: &impl Print, c: &mut Cluster) -> io::Result<()> {
    propose(rt, c, BACK_14)?;
    rounds::say_queue(rt, c.site(1))?;
    settle(rt, c, 64)
}

// Two entries more, and the table.
fn rest(rt: &impl Print, c: &mut Cluster) -> io::Result<()> {
    propose(rt, c, OUT_33)?;
    settle(rt, c, 64)?;
    propose(rt, c, BACK_35)?;
    settle(rt, c, 64)?;
    rounds::say_table(rt, *c)
}

fn old_rule(rt: &impl Print, c: Cluster) -> io::Result<()> {
    println!(rt;
        "\n== The old rule, on a copy in which the position is put back: the second entry joins the message of number 1.2."
    )?;
    println!(rt;
        "-- Depot 3 drops that message, as it waits for an AcceptSync. Nobody sends it 7431 again, and it takes the next entry in its place:"
    )?;
    println!(rt;
        "-- it misses the back of day 14, and charges the 19 days up to day 33 on which the pump stood in the yard."
    )?;
    let mut put_back = remembered(c);
    second_entry(rt, &mut put_back)?;
    rest(rt, &mut put_back)
}

fn new_rule(rt: &impl Print, c: &mut Cluster) -> io::Result<()> {
    println!(rt;
        "\n== The new rule: the AcceptSync forgot the position, and the second entry goes to depot 3 in an AcceptDecide of session 2."
    )?;
    second_entry(rt, c)?;
    rest(rt, c)
}

fn main(rt: HostRuntime) -> io::Result<()> {
    let mut c = Cluster::fresh();
    lead(&rt, &mut c)?;
    lose_session_1(&rt, &mut c)?;
    resend_promise(&rt, &mut c)?;
    old_rule(&rt, c)?;
    new_rule(&rt, &mut c)
}
