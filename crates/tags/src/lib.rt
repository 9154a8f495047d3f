// The variants that a record holds as a tag and what it holds, and back (docs/LAYOUT.md).
#![tactic(auto)]

ghost use Rattle.std.specs.Prelude.{◌≡◌};
ghost use Rattle.tags.specs.Tags.{option_tag, promise_tag, promise_meta};
ghost use Rattle.tags.specs.Variants.{option_of, promise_of, role_of, phase_of};

use leader_state::{MaxPromise, PromiseMetaData, PromiseState};
use paxos_box::{Phase, Role};

// A variant's tag, and what it holds; where it holds nothing, zeros. A role's or a phase's tag is its number.

pub fn option_tag<T: Copy>(o: Option<T>) -> u64
    ensures { result ≡ option_tag o }
{
    u64::from(o.is_some())
}

pub fn promise_tag(p: PromiseState) -> u64
    ensures { result ≡ promise_tag p }
{
    match p {
        PromiseState::NotPromised => 0,
        PromiseState::Promised(_) => 1,
        PromiseState::PromisedHigher => 2,
    }
}

pub fn promise_meta(p: PromiseState) -> PromiseMetaData
    ensures { result ≡ promise_meta p }
{
    match p {
        PromiseState::Promised(m) => m,
        _ => MaxPromise::none().meta,
    }
}

// The variant that a tag and what it holds mean. A tag above its most, which no block that means something has, is read as the last.
// Kept: functions and no From: a From would stand with the types, in crates that know nothing of words, and the last variant is no number's own.

pub fn option_of<T: Copy>(tag: u64, x: T) -> Option<T>
    ensures { result ≡ option_of tag x }
{
    match tag {
        0 => None,
        _ => Some(x),
    }
}

pub fn promise_of(tag: u64, m: PromiseMetaData) -> PromiseState
    ensures { result ≡ promise_of tag m }
{
    match tag {
        0 => PromiseState::NotPromised,
        1 => PromiseState::Promised(m),
        _ => PromiseState::PromisedHigher,
    }
}

pub fn role_of(tag: u64) -> Role
    ensures { result ≡ role_of tag }
{
    match tag {
        0 => Role::Follower,
        _ => Role::Leader,
    }
}

pub fn phase_of(tag: u64) -> Phase
    ensures { result ≡ phase_of tag }
{
    match tag {
        0 => Phase::Prepare,
        1 => Phase::Accept,
        2 => Phase::Recover,
        _ => Phase::None,
    }
}
