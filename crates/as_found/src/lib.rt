// Whether all that a step was lent is as found: the record and the row as words (docs/LAYOUT.md), and the lists, cell by cell.
#![tactic(auto)]

ghost use Rattle.std.specs.Prelude.{◌≡◌, true};
ghost use Rattle.cluster.specs.Cluster.{world_of};

use cluster::Site;
use layout_record::RECORD;
use layout_row::ROW;
use messages::Row;
use record::Record;

// Kept, here and in `same_row`: by words, since from the derived equality of so many fields the proof did not close.
fn same_record(a: Record, b: Record) -> bool
    ensures { result ≡ true → a ≡ b }
{
    let mut x = [0u64; RECORD];
    let mut y = [0u64; RECORD];
    layout_record::write_record(&mut x, a);
    layout_record::write_record(&mut y, b);
    cluster::same(&x, &y)
}

fn same_row(a: Row, b: Row) -> bool
    ensures { result ≡ true → a ≡ b }
{
    let mut x = [0u64; ROW];
    let mut y = [0u64; ROW];
    layout_row::write_row(&mut x, a);
    layout_row::write_row(&mut y, b);
    cluster::same(&x, &y)
}

fn same_list<const N: usize>(a: [u64; N], b: [u64; N]) -> bool
    ensures { result ≡ true → a ≡ b }
{
    cluster::same(&a, &b)
}

// The same record, row and lists: what a step of either would be given.
// Kept as a test for each: joined by `&&` the proof did not close.
pub fn same_site(a: Site, b: Site) -> bool
    ensures { result ≡ true → world_of a ≡ world_of b }
{
    if !same_list(a.log, b.log) {
        return false;
    }
    if !same_list(a.cached, b.cached) {
        return false;
    }
    if !same_list(a.best, b.best) {
        return false;
    }
    if !same_list(a.store, b.store) {
        return false;
    }
    if !same_list(a.book, b.book) {
        return false;
    }
    if !same_row(a.row, b.row) {
        return false;
    }
    same_record(a.node, b.node)
}
