// The limits (docs/RULES.md, R1.6), each met and then passed, and every refusal with everything lent shown unchanged. One line a case.
#![tactic(auto)]

use ballot::Ballot;
use cluster::Site;
use leader_state::LeaderState;
use messages::{Event, PaxosMessage, PaxosMsg, Promise};
use paxos_box::{InternalStorage, Phase, Role, State};
use quorum::{Configuration, FlexibleQuorum, Quorum};
use sequence::SequenceNumber;
use std::io;
use telling::{say_answer, say_number};

// The ballot of depot 1 in its first round.
fn first_ballot() -> Ballot {
    Ballot {
        n: 1,
        priority: 0,
        pid: 1,
    }
}

// The leader's record of depot 1, with the last number sent to depot 2.
fn lead_record(mut l: LeaderState, seq_num: SequenceNumber) -> LeaderState {
    l.n_leader = first_ballot();
    l.depots[1].seq_num = seq_num;
    l
}

// Depot 1 in (Leader, Accept), with a log of that many entries.
fn leader_of(config: Configuration, len: usize, session: u64) -> Site {
    let mut s = Site::fresh(config);
    let seq_num = SequenceNumber {
        session,
        counter: 1,
    };
    s.node.leader_state = lead_record(s.node.leader_state, seq_num);
    s.node.internal_storage = InternalStorage {
        promise: first_ballot(),
        accepted_round: first_ballot(),
        decided_idx: 0,
        accepted_idx: len,
    };
    s.node.state = State {
        role: Role::Leader,
        phase: Phase::Accept,
    };
    s
}

// A Promise of a depot that has accepted nothing.
fn promise_from(from: u64, n: Ballot) -> Event {
    let promise = Promise {
        n,
        n_accepted: Ballot::default(),
        decided_idx: 0,
        accepted_idx: 0,
        log_sync: None,
    };
    Event::Message(PaxosMessage {
        from,
        msg: PaxosMsg::Promise(promise),
    })
}

// The record with a decided index that the empty log does not have.
fn decided_past(mut s: Site) -> Site {
    s.node.internal_storage.decided_idx = 1;
    s
}

// How many entries the messages of the queue carry.
fn carried(s: &Site) -> usize {
    let waiting = s.row.heads.iter().take(s.node.outgoing);
    waiting.fold(0, |sum: usize, head| sum.wrapping_add(head.count))
}

// What a taken step leaves: the log's length, the buffered proposals, the queue.
fn say_sizes(rt: &impl Print, s: &Site) -> io::Result<()> {
    say_number(rt, b"; log ", s.node.internal_storage.accepted_idx as u64)?;
    say_number(rt, b", buffered ", s.node.buffered_proposals.len as u64)?;
    say_number(rt, b", queue ", s.node.outgoing as u64)?;
    say_number(rt, b" with ", carried(s) as u64)?;
    println!(rt; "")
}

fn say_found(rt: &impl Print, before: Site, after: Site) -> io::Result<()> {
    if as_found::same_site(before, after) {
        return println!(rt; ", everything as found");
    }
    println!(rt; ", CHANGED")
}

// A step and what it answered. Refused, all that was lent is compared with what was found.
fn case(rt: &impl Print, name: &str, s: Site, e: Event, entries: &[u64]) -> io::Result<Site> {
    print!(rt; "{name}")?;
    let x = s.step(e, entries);
    say_answer(rt, x.answer.no)?;
    if x.answer.no == 0 {
        say_sizes(rt, &x.site)?;
    } else {
        say_found(rt, s, x.site)?;
    }
    Ok(x.site)
}

fn log_limit(rt: &impl Print) -> io::Result<()> {
    let s = leader_of(cluster::majority(3, 1), 511, 0);
    case(rt, "log 511 and one entry", s, Event::Propose, &[5127])?;
    case(
        rt,
        "log 511 and two entries",
        s,
        Event::Propose,
        &[5127, 5127],
    )?;
    Ok(())
}

fn buffer_limit(rt: &impl Print) -> io::Result<()> {
    let s = Site::fresh(cluster::majority(3, 1));
    let full = case(
        rt,
        "buffer 0 and sixteen entries",
        s,
        Event::Propose,
        &[5127; 16],
    )?;
    case(rt, "buffer 16 and one entry", full, Event::Propose, &[7431])?;
    Ok(())
}

// So many steps of one event.
fn again(mut s: Site, e: Event, turns: usize) -> Site {
    for _ in 0..turns {
        s = s.step(e, &[]).site;
    }
    s
}

fn queue_limits(rt: &impl Print) -> io::Result<()> {
    let s = Site::fresh(cluster::majority(3, 1));
    let s1 = again(s, Event::Reconnect(2), 63);
    let s2 = case(rt, "queue 63 and a message", s1, Event::Reconnect(2), &[])?;
    case(rt, "queue 64 and a message", s2, Event::Reconnect(2), &[])?;
    let promise = promise_from(2, first_ballot());
    let t = again(leader_of(cluster::majority(3, 1), 512, 0), promise, 7);
    let t1 = case(
        rt,
        "queue of 3,584 entries and an AcceptSync of 512",
        t,
        promise,
        &[],
    )?;
    case(
        rt,
        "queue of 4,096 entries and an AcceptSync of 512",
        t1,
        promise,
        &[],
    )?;
    Ok(())
}

// Seven depots, all of which must promise: the last Promise draws six AcceptSyncs of 512 entries.
fn six_syncs(rt: &impl Print) -> io::Result<()> {
    let sizes = FlexibleQuorum {
        read_quorum_size: 7,
        write_quorum_size: 1,
    };
    let config = Configuration {
        depots: 7,
        pid: 1,
        quorum: Quorum::Flexible(sizes),
    };
    let n = Ballot {
        n: 2,
        priority: 0,
        pid: 1,
    };
    let s = again(leader_of(config, 512, 0), Event::Leader(n), 1);
    let mut site = again(s, Event::Drain, 1);
    for from in 2..7 {
        site = again(site, promise_from(from, n), 1);
    }
    case(
        rt,
        "queue 0 and the Promise that draws six AcceptSyncs",
        site,
        promise_from(7, n),
        &[],
    )?;
    Ok(())
}

fn refusals(rt: &impl Print) -> io::Result<()> {
    let s = Site::fresh(cluster::majority(3, 1));
    case(
        rt,
        "1: one depot",
        Site::fresh(cluster::majority(1, 1)),
        Event::Drain,
        &[],
    )?;
    case(
        rt,
        "2: decided index above the log's length",
        decided_past(s),
        Event::Drain,
        &[],
    )?;
    case(
        rt,
        "3: a reconnect that names depot 0",
        s,
        Event::Reconnect(0),
        &[],
    )?;
    case(
        rt,
        "4: an entry above its limit",
        s,
        Event::Propose,
        &[33_554_432],
    )?;
    Ok(())
}

fn later_refusals(rt: &impl Print) -> io::Result<()> {
    let full = leader_of(cluster::majority(3, 1), 512, 0);
    let top = leader_of(cluster::majority(3, 1), 0, base::LARGEST);
    let s = Site::fresh(cluster::majority(3, 1));
    case(
        rt,
        "5: a full log and an entry",
        full,
        Event::Propose,
        &[5127],
    )?;
    case(
        rt,
        "6: a full queue and a message",
        again(s, Event::Reconnect(2), 64),
        Event::Reconnect(3),
        &[],
    )?;
    case(
        rt,
        "7: a session at its top and a Promise",
        top,
        promise_from(2, first_ballot()),
        &[],
    )?;
    let waiting = s.step(Event::Propose, &[5127; 16]).site;
    case(
        rt,
        "8: a full buffer and an entry",
        waiting,
        Event::Propose,
        &[5127],
    )?;
    Ok(())
}

fn main(rt: HostRuntime) -> io::Result<()> {
    log_limit(&rt)?;
    buffer_limit(&rt)?;
    queue_limits(&rt)?;
    six_syncs(&rt)?;
    refusals(&rt)?;
    later_refusals(&rt)
}
