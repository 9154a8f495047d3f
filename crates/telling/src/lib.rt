// What depots send and answer, written to standard output in words.
#![tactic(auto)]

use ballot::Ballot;
use messages::PaxosMsg;
use paxos_box::{Phase, Role, State};
use sequence::SequenceNumber;
use std::{fmt, io};

// A value of the box as it is told: each type's words are its `Display`.
#[derive(Clone, Copy)]
pub struct Told<T>(pub T);

// round.priority.pid
impl fmt::Display for Told<Ballot> {
    fn fmt<W: fmt::Write>(&self, f: &mut fmt::Formatter<W>) -> fmt::Result {
        let Ballot { n, priority, pid } = self.0;
        write!(f, "{n}.{priority}.{pid}")
    }
}

// session.counter
impl fmt::Display for Told<SequenceNumber> {
    fn fmt<W: fmt::Write>(&self, f: &mut fmt::Formatter<W>) -> fmt::Result {
        let SequenceNumber { session, counter } = self.0;
        write!(f, "{session}.{counter}")
    }
}

// Where a sync's entries begin.
impl fmt::Display for Told<Option<usize>> {
    fn fmt<W: fmt::Write>(&self, f: &mut fmt::Formatter<W>) -> fmt::Result {
        match self.0 {
            None => write!(f, "no sync"),
            Some(start) => write!(f, "sync from {start}"),
        }
    }
}

impl fmt::Display for Told<PaxosMsg> {
    fn fmt<W: fmt::Write>(&self, f: &mut fmt::Formatter<W>) -> fmt::Result {
        match self.0 {
            PaxosMsg::PrepareReq(m) => write!(f, "PrepareReq {}", Told(m.n)),
            PaxosMsg::Prepare(m) => write!(
                f,
                "Prepare {} accepted {} in {} decided {}",
                Told(m.n),
                m.accepted_idx,
                Told(m.n_accepted),
                m.decided_idx
            ),
            PaxosMsg::Promise(m) => write!(
                f,
                "Promise {} accepted {} in {} decided {} {}",
                Told(m.n),
                m.accepted_idx,
                Told(m.n_accepted),
                m.decided_idx,
                Told(m.log_sync)
            ),
            PaxosMsg::AcceptSync(m) => write!(
                f,
                "AcceptSync {} number {} decided {} from {}",
                Told(m.n),
                Told(m.seq_num),
                m.decided_idx,
                m.sync_idx
            ),
            PaxosMsg::AcceptDecide(m) => write!(
                f,
                "AcceptDecide {} number {} decided {}",
                Told(m.n),
                Told(m.seq_num),
                m.decided_idx
            ),
            PaxosMsg::Accepted(m) => {
                write!(f, "Accepted {} accepted {}", Told(m.n), m.accepted_idx)
            }
            PaxosMsg::NotAccepted(m) => write!(f, "NotAccepted {}", Told(m.n)),
            PaxosMsg::Decide(m) => write!(
                f,
                "Decide {} number {} decided {}",
                Told(m.n),
                Told(m.seq_num),
                m.decided_idx
            ),
            PaxosMsg::ProposalForward => write!(f, "ProposalForward"),
        }
    }
}

impl fmt::Display for Told<State> {
    fn fmt<W: fmt::Write>(&self, f: &mut fmt::Formatter<W>) -> fmt::Result {
        let role = match self.0.role {
            Role::Follower => "Follower",
            Role::Leader => "Leader",
        };
        let phase = match self.0.phase {
            Phase::Prepare => "Prepare",
            Phase::Accept => "Accept",
            Phase::Recover => "Recover",
            Phase::None => "None",
        };
        write!(f, "{role} {phase}")
    }
}

// Each entry after a space; nothing where there is none.
impl fmt::Display for Told<&[u64]> {
    fn fmt<W: fmt::Write>(&self, f: &mut fmt::Formatter<W>) -> fmt::Result {
        if self.0.is_empty() {
            return Ok(());
        }
        write!(f, " entries")?;
        for entry in self.0 {
            write!(f, " {entry}")?;
        }
        Ok(())
    }
}

// Kept, here and below: public calls whose texts are bytes, since a `&str` asks more of callers; what they show is Display of `Told`.
pub fn say(rt: &impl Print, text: &[u8]) -> io::Result<()> {
    rt.write_all(text)
}

// A text, then a number.
pub fn say_number(rt: &impl Print, text: &[u8], n: u64) -> io::Result<()> {
    say(rt, text)?;
    rt.print(n)
}

pub fn say_entries(rt: &impl Print, entries: &[u64]) -> io::Result<()> {
    rt.print(Told(entries))
}

pub fn say_ballot(rt: &impl Print, text: &[u8], n: Ballot) -> io::Result<()> {
    say(rt, text)?;
    rt.print(Told(n))
}

pub fn say_message(rt: &impl Print, m: PaxosMsg) -> io::Result<()> {
    rt.print(Told(m))
}

pub fn say_state(rt: &impl Print, state: State) -> io::Result<()> {
    rt.print(Told(state))
}

// What a step answered: taken, or the number of the refusal.
pub fn say_answer(rt: &impl Print, no: u32) -> io::Result<()> {
    match no {
        0 => print!(rt; ": taken"),
        _ => print!(rt; ": refused with {no}"),
    }
}
