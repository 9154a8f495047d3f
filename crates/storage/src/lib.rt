// What a plan writes to the lent lists: the log, the two sync buffers and the buffered proposals (storage/). Nothing here refuses: deciding has shown that it fits.
#![tactic(auto)]

ghost use Rattle.std.specs.Prelude.{◌≡◌, ◌+◌, ◌≤◌, length, take, drop};
ghost use Rattle.base.specs.Limits.{max_log, max_buffered};
ghost use Rattle.base.specs.Lists.{over};
ghost use Rattle.storage.specs.Storage.{put_at, end_after, op_on, log_after, cached_after, best_after, best_count, buffer_after, buffer_count};

use base::MAX_BUFFERED;
use leader_state::LogSync;
use paxos_box::LogOp;

// The first n entries, or all where there are fewer.
pub fn first(entries: &[u64], n: usize) -> &[u64]
    ensures { result.now ≡ take n entries.now }
{
    &entries[..n.min(entries.len())]
}

// The first n entries from a place on, or as many as there are.
pub fn part(entries: &[u64], from: usize, n: usize) -> &[u64]
    ensures { result.now ≡ take n (drop from entries.now) }
{
    first(&entries[from.min(entries.len())..], n)
}

// The suffix over the part's start; the rest of the part as found.
// Kept: a `for`, since by `copy_from_slice` reading and writing a record's or a row's words took a quarter longer.
#[tactic(auto, unfolding(base::specs::Lists::over))]
pub fn write_suffix(part: &mut [u64], suffix: &[u64])
    requires { length suffix.now ≤ length part.old }
    ensures { part.new ≡ over suffix.now part.old }
{
    for i in 0..suffix.len() {
        part[i] = suffix[i];
    }
}

// The log from the sync index on is rewritten, and nothing before it is touched.
pub fn sync_log(log: &mut [u64], sync_idx: usize, suffix: &[u64])
    requires { sync_idx + length suffix.now ≤ length log.old }
    ensures { log.new ≡ put_at sync_idx suffix.now log.old }
{
    write_suffix(&mut log[sync_idx..], suffix);
}

// Where the log ends after the operation.
fn end_after(op: LogOp, len: usize) -> usize
    requires { end_after op len ≤ max_log }
    ensures { result ≡ end_after op len }
{
    match op {
        LogOp::Keep => len,
        LogOp::Append(count) => len + count,
        LogOp::PutGiven(x) | LogOp::PutHeld(x) => x.sync_idx + x.len,
    }
}

// A sync put on: the first `x.len` entries from the sync index on.
fn put(log: &mut [u64], x: LogSync, suffix: &[u64])
    requires { x.sync_idx + x.len ≤ length log.old }
    ensures { log.new ≡ put_at x.sync_idx (take x.len suffix.now) log.old }
{
    sync_log(log, x.sync_idx, first(suffix, x.len));
}

fn write_op(log: &mut [u64], len: usize, op: LogOp, given: &[u64], held: &[u64])
    requires { end_after op len ≤ length log.old }
    ensures { log.new ≡ op_on op len given.now held.now log.old }
{
    match op {
        LogOp::Keep => {}
        LogOp::Append(count) => sync_log(log, len, first(given, count)),
        LogOp::PutGiven(x) => put(log, x, given),
        LogOp::PutHeld(x) => put(log, x, held),
    }
}

// The operation, and then the first `kept` of the buffered proposals at the end that it leaves.
#[tactic(auto, unfolding(crate::specs::Storage::log_after))]
pub fn write_log(
    log: &mut [u64],
    len: usize,
    op: LogOp,
    given: &[u64],
    held: &[u64],
    buffered: [u64; MAX_BUFFERED],
    kept: usize,
)
    requires log_len { length log.old ≡ max_log }
    requires kept_bound { end_after op len + kept ≤ max_log }
    ensures { log.new ≡ log_after op len given.now held.now buffered kept log.old }
{
    write_op(log, len, op, given, held);
    sync_log(log, end_after(op, len), first(&buffered, kept));
}

// The cached promise's buffer, from the log as the step leaves it.
pub fn write_cached(cached: &mut [u64], log: &[u64], op: Option<LogSync>)
    requires { length log.now ≤ length cached.old }
    ensures { cached.new ≡ cached_after op log.now cached.old }
{
    if let Some(x) = op {
        write_suffix(cached, part(log, x.sync_idx, x.len));
    }
}

// The held sync's buffer.
pub fn write_best(best: &mut [u64], given: &[u64], op: Option<usize>)
    requires { best_count op ≤ length best.old }
    ensures { best.new ≡ best_after op given.now best.old }
{
    if let Some(count) = op {
        write_suffix(best, first(given, count));
    }
}

// The buffered proposals, of which the first `len` wait.
pub fn write_buffer(
    mut entries: [u64; MAX_BUFFERED],
    len: usize,
    given: &[u64],
    op: Option<usize>,
) -> [u64; MAX_BUFFERED]
    requires { len + buffer_count op ≤ max_buffered }
    ensures { result ≡ buffer_after op len given.now entries }
{
    if let Some(count) = op {
        sync_log(&mut entries, len, first(given, count));
    }
    entries
}
