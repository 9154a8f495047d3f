// What every crate shares: the limits of document 01, the refusals, rulesets, and laws on lists, counts and ordered refusals.
#![tactic(auto)]

ghost use Rattle.std.specs.Prelude.{◌≡◌};
ghost use Rattle.base.specs.Limits.{limits_of};
ghost use Rattle.base.specs.Refusal.{number_of, Numbered};

use std::error::Error;
use std::fmt;

pub const MIN_DEPOTS: u64 = 2;

pub const MAX_DEPOTS: u64 = 7;

pub const MAX_LOG: usize = 512;

pub const MAX_BUFFERED: usize = 16;

pub const MAX_PROPOSAL: usize = 16;

pub const MAX_MESSAGES: usize = 64;

pub const MAX_STORE: usize = 4096;

pub const MAX_ENTRY: u64 = 33_554_431;

pub const MAX_DAY: u64 = 65_535;

pub const PUMPS: usize = 256;

pub const LARGEST: u64 = u64::MAX;

// The limits side by side, so that each constant is shown once to be its definition's number.
#[derive(Clone, Copy)]
pub struct Limits {
    pub min_depots: u64,
    pub max_depots: u64,
    pub max_log: usize,
    pub max_buffered: usize,
    pub max_proposal: usize,
    pub max_messages: usize,
    pub max_store: usize,
    pub max_entry: u64,
    pub max_day: u64,
    pub pumps: usize,
    pub largest: u64,
}

pub fn limits_of_document() -> Limits
    ensures { result ≡ limits_of }
{
    Limits {
        min_depots: MIN_DEPOTS,
        max_depots: MAX_DEPOTS,
        max_log: MAX_LOG,
        max_buffered: MAX_BUFFERED,
        max_proposal: MAX_PROPOSAL,
        max_messages: MAX_MESSAGES,
        max_store: MAX_STORE,
        max_entry: MAX_ENTRY,
        max_day: MAX_DAY,
        pumps: PUMPS,
        largest: LARGEST,
    }
}

// Why a box or a book says no (R2), with the number that C is given; 0 is no refusal.
#[derive(Clone, Copy, Debug, PartialEq, Eq)]
pub enum Refusal {
    WrongCall = 1,
    Broken = 2,
    Stranger = 3,
    Unfit = 4,
    LogFull = 5,
    QueueFull = 6,
    AtTop = 7,
    BufferFull = 8,
}

impl From<Refusal> for u32 {
    ghost from_gives = { λ refusal number. number ≡ number_of refusal };

    fn from(refusal: Refusal) -> u32 {
        refusal as u32
    }
}

// A number that is no refusal's.
#[derive(Clone, Copy, Debug, PartialEq, Eq)]
pub struct NoRefusal(pub u32);

impl TryFrom<u32> for Refusal {
    type Error = NoRefusal;

    ghost try_from_gives = { Numbered };

    fn try_from(number: u32) -> Result<Self, NoRefusal> {
        Ok(match number {
            1 => Refusal::WrongCall,
            2 => Refusal::Broken,
            3 => Refusal::Stranger,
            4 => Refusal::Unfit,
            5 => Refusal::LogFull,
            6 => Refusal::QueueFull,
            7 => Refusal::AtTop,
            8 => Refusal::BufferFull,
            _ => return Err(NoRefusal(number)),
        })
    }
}

impl fmt::Display for Refusal {
    fn fmt<W: fmt::Write>(&self, f: &mut fmt::Formatter<W>) -> fmt::Result {
        f.write_str(match self {
            Refusal::WrongCall => "the call is wrong",
            Refusal::Broken => "the record is broken",
            Refusal::Stranger => "the depot is none",
            Refusal::Unfit => "the message or proposal is unfit",
            Refusal::LogFull => "the log would be too long",
            Refusal::QueueFull => "the queue would be too full",
            Refusal::AtTop => "a session or counter is at its end",
            Refusal::BufferFull => "too many proposals would be buffered",
        })
    }
}

impl fmt::Display for NoRefusal {
    fn fmt<W: fmt::Write>(&self, f: &mut fmt::Formatter<W>) -> fmt::Result {
        write!(f, "no refusal has number {}", self.0)
    }
}

impl Error for Refusal {}

impl Error for NoRefusal {}
