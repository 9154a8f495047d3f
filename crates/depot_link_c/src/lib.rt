// The archive to link from C or Rust, libdepot_link.a: `depot_link`'s calls under their exported names, each with the same clauses (include/depots.h).
#![tactic(auto)]

ghost use Rattle.broken.specs.Lent.{lent};
ghost use Rattle.depot_link.specs.Link.{held, linked, linked_step, Follows, fresh, fresh_in};
ghost use Rattle.depot_link.specs.Report.{reported, report_in};
ghost use Rattle.std.specs.Prelude.{◌≡◌};

// The record of a box that never ran. 1 where the slice has not the length of a record.
#[unsafe(no_mangle)]
pub extern "C" fn depots_fresh(record: &mut [u64]) -> u32
    ensures { fresh result «record».new ≡ fresh_in «record».old }
{
    depot_link::depots_fresh(record)
}

// One step. The answer is 0 or the refusal's number (docs/RULES.md, R2); how many buffered entries were dropped, and how many messages a drain handed out, go to
// `dropped` and `handed_out`. Any slices may be given: where it is refused, all but these two is as found.
#[unsafe(no_mangle)]
pub extern "C" fn depots_step(
    configuration: &[u64],
    record: &mut [u64],
    row: &mut [u64],
    log: &mut [u64],
    cached: &mut [u64],
    best: &mut [u64],
    store: &mut [u64],
    book: &mut [u64],
    event: &[u64],
    entries: &[u64],
    dropped: &mut u64,
    handed_out: &mut u64,
) -> u32
    ensures book_after { linked result dropped.new handed_out.new (held «record».new row.new (lent log.new cached.new best.new store.new book.new)) ≡ linked_step configuration.now event.now entries.now (held «record».old row.old (lent log.old cached.old best.old store.old book.old)) }
    ensures follows { Follows configuration.now event.now entries.now (held «record».old row.old (lent log.old cached.old best.old store.old book.old)) (held «record».new row.new (lent log.new cached.new best.new store.new book.new)) }
{
    depot_link::depots_step(
        configuration,
        record,
        row,
        log,
        cached,
        best,
        store,
        book,
        event,
        entries,
        dropped,
        handed_out,
    )
}

// Kept beside depots_step: C links both names, and each exported function states its promise itself; the answers are the numbers of include/depots.h.
// The same step with its row of heads lent to `depot::step` on the way, as a caller in Rattle lends it: for the replay and the benchmark.
#[unsafe(no_mangle)]
pub extern "C" fn depots_step_lent(
    configuration: &[u64],
    record: &mut [u64],
    row: &mut [u64],
    log: &mut [u64],
    cached: &mut [u64],
    best: &mut [u64],
    store: &mut [u64],
    book: &mut [u64],
    event: &[u64],
    entries: &[u64],
    dropped: &mut u64,
    handed_out: &mut u64,
) -> u32
    ensures book_after { linked result dropped.new handed_out.new (held «record».new row.new (lent log.new cached.new best.new store.new book.new)) ≡ linked_step configuration.now event.now entries.now (held «record».old row.old (lent log.old cached.old best.old store.old book.old)) }
    ensures follows { Follows configuration.now event.now entries.now (held «record».old row.old (lent log.old cached.old best.old store.old book.old)) (held «record».new row.new (lent log.new cached.new best.new store.new book.new)) }
{
    depot_link::depots_step_lent(
        configuration,
        record,
        row,
        log,
        cached,
        best,
        store,
        book,
        event,
        entries,
        dropped,
        handed_out,
    )
}

// The report of a book, as text at the start of `out`, whose further bytes stay; `count` is how many bytes it has, 0 where it is refused.
#[unsafe(no_mangle)]
pub extern "C" fn depots_report(book: &[u64], out: &mut [u8], count: &mut u64) -> u32
    ensures { reported result count.new out.new ≡ report_in book.now out.old }
{
    depot_link::depots_report(book, out, count)
}
