// The queue as the caller lends it: a row of message heads, read and written in place. Each function over it is thin: what is decided of a head is decided by value.
#![tactic(auto)]

ghost use Rattle.std.specs.Prelude.{◌≡◌, ◌<◌, length, take, set, get_or};
ghost use Rattle.base.specs.Lists.{over};
ghost use Rattle.messages.specs.Messages.{no_head};
ghost use Rattle.lent_heads.specs.Heads.{blank_row, edited_head, edited, snapshot_of, written_to};

use base::MAX_MESSAGES;
use messages::{Head, PaxosMsg, Row};

// What stands at a place of the lent row.
pub fn get(heads: &[Head], at: usize) -> Head
    requires { at < length heads.now }
    ensures { result ≡ get_or heads.now at no_head }
{
    heads[at]
}

// A head goes to its place.
pub fn push(heads: &mut [Head], at: usize, h: Head)
    requires { at < length heads.old }
    ensures { heads.new ≡ set heads.old at h }
{
    heads[at] = h;
}

// The head with another decided index, if it is an AcceptDecide, and another count of entries.
pub fn edited_head(h: Head, decided_idx: usize, count: usize) -> Head
    ensures { result ≡ edited_head decided_idx count h }
{
    Head {
        msg: h.msg.with_decided(decided_idx),
        count,
        ..h
    }
}

// The decided index and the count of entries of a remembered AcceptDecide change, and nothing else.
pub fn edit(heads: &mut [Head], at: usize, decided_idx: usize, count: usize)
    requires { at < length heads.old }
    ensures { heads.new ≡ edited heads.old at decided_idx count }
{
    heads[at] = edited_head(heads[at], decided_idx, count);
}

// The heads of one row go over the start of another, as far as both go.
// Kept: a `for`, since by `copy_from_slice` the archive for C needs memmove from outside.
#[tactic(auto, unfolding(base::specs::Lists::over))]
fn copy_front(to: &mut [Head], from: &[Head])
    ensures { to.new ≡ over (take (length to.old) from.now) to.old }
{
    for i in 0..to.len().min(from.len()) {
        push(to, i, get(from, i));
    }
}

fn blank() -> Row
    ensures { result ≡ blank_row }
{
    let h = Head {
        to: 0,
        msg: PaxosMsg::ProposalForward,
        start: 0,
        count: 0,
    };
    Row {
        heads: [h; MAX_MESSAGES],
    }
}

// The lent row by value: its first 64 heads; places past its end are blank.
#[tactic(auto, unfolding(crate::specs::Heads::snapshot_of))]
pub fn snapshot(heads: &[Head]) -> Row
    ensures { result ≡ snapshot_of heads.now }
{
    let mut row = blank();
    copy_front(&mut row.heads, heads);
    row
}

// The row by value goes to the lent row, as far as that goes; what lies past 64 heads is as found.
#[tactic(auto, unfolding(crate::specs::Heads::written_to))]
pub fn apply(heads: &mut [Head], row: Row)
    ensures { heads.new ≡ written_to heads.old row }
{
    copy_front(heads, &row.heads);
}
