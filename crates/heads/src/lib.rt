// Tests over the heads that wait in the row: where their entries lie in the store, the ballots they name, the entries themselves.
#![tactic(auto)]

ghost use Rattle.std.specs.Prelude.{Bool, ◌≡◌, ◌≤◌};
ghost use Rattle.base.specs.Limits.{max_messages};
ghost use Rattle.messages.specs.declared.Head.{Head};
ghost use Rattle.heads.specs.Heads.{Tells, any_head, outside, overlap, heads_overlap, any_overlap, head_outside, head_foreign, head_above};

use base::MAX_STORE;
use messages::{Head, Row};
use quorum::Configuration;

#[tactic(auto, unfolding(crate::specs::Heads::outside))]
fn outside(start: usize, count: usize) -> bool
    ensures { result ≡ outside start count }
{
    count != 0 && (MAX_STORE < start || MAX_STORE - start < count)
}

#[tactic(auto, unfolding(crate::specs::Heads::overlap))]
fn overlap(a: usize, n: usize, b: usize, m: usize) -> bool
    ensures { result ≡ overlap a n b m }
{
    n != 0 && m != 0 && if a < b { b - a < n } else { a - b < m }
}

// Whether some head of the first `len` passes the test.
// Kept, here and below: a row with how many of its heads wait beside it, as C lends it (docs/LAYOUT.md); the heads past that many keep what they held (cell_laws).
#[tactic(auto, unfolding(crate::specs::Heads::any_head))]
fn any_head<F: Fn(Head) -> bool>(row: &Row, len: usize, test: F) -> bool
    requires len_le_max_messages { len ≤ max_messages }
    requires callable { F.IsAlwaysCallable test }
    ensures { (f : Head → Bool) → Tells (F.post test) f row.now len → result ≡ any_head f row.now len }
{
    for h in &row.heads[..len] {
        if test(*h) {
            return true;
        }
    }
    false
}

// Whether the entries of some head lie outside the store.
pub fn any_outside(row: &Row, len: usize) -> bool
    requires { len ≤ max_messages }
    ensures { result ≡ any_head head_outside row.now len }
{
    any_head(row, len, |h| outside(h.start, h.count))
}

// Whether some head names a nonzero ballot whose pid is no depot.
pub fn any_foreign(row: &Row, len: usize, c: Configuration) -> bool
    requires { len ≤ max_messages }
    ensures { result ≡ any_head (head_foreign c) row.now len }
{
    any_head(row, len, |h| unfit::ballot_foreign(c, h.msg))
}

// Whether some entry of the first `len` heads is above its limit.
pub fn any_head_above(row: &Row, len: usize, store: &[u64]) -> bool
    requires { len ≤ max_messages }
    ensures { result ≡ any_head (head_above store.now) row.now len }
{
    any_head(row, len, |h| {
        hire_book::any_above(storage::part(store, h.start, h.count))
    })
}

// Whether a head's entries overlap those of some head before place j.
fn overlaps_before(h: &Head, row: &Row, j: usize) -> bool
    requires { j ≤ max_messages }
    ensures { result ≡ any_head (heads_overlap h.now) row.now j }
{
    any_head(row, j, |g| overlap(h.start, h.count, g.start, g.count))
}

// Whether the entries of two of the first `len` heads overlap.
#[tactic(auto, unfolding(hire_book::specs::Below::any_below, crate::specs::Heads::any_overlap))]
pub fn any_overlap(row: &Row, len: usize) -> bool
    requires { len ≤ max_messages }
    ensures { result ≡ any_overlap row.now len }
{
    for (j, h) in row.heads[..len].iter().enumerate() {
        if overlaps_before(h, row, j) {
            return true;
        }
    }
    false
}
