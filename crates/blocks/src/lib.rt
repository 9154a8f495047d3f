// Blocks of sixteen words: one read from a slice, one written to it, whether a word of one is above its most; and the ballot that three words are.
#![tactic(auto)]

ghost use Rattle.std.specs.Prelude.{◌≡◌, ◌+◌, ◌*◌, ◌≤◌, length};
ghost use Rattle.base.specs.Limits.{max_messages};
ghost use Rattle.storage.specs.Storage.{put_at};
ghost use Rattle.blocks.specs.Blocks.{block_words, block_at, over_most, above_most, small, ballot_of, ballot_words, Narrow};

use ballot::Ballot;

pub const WORDS: usize = 16;

pub type Block = [u64; WORDS];

// The largest round, and the largest priority, of a ballot.
pub const MOST_32: u64 = u32::MAX as u64;

// Block i of the words; words past their end are 0.
#[tactic(auto, unfolding(crate::specs::Blocks::block_at))]
pub fn block(words: &[u64], i: usize) -> Block
    requires { i ≤ max_messages }
    ensures { result ≡ block_at i words.now }
{
    let mut b = [0; WORDS];
    storage::write_suffix(&mut b, storage::part(words, i * WORDS, WORDS));
    b
}

// Block i is written; nothing else of the words is touched.
pub fn put_block(words: &mut [u64], i: usize, b: Block)
    requires { i * block_words + block_words ≤ length words.old }
    ensures { words.new ≡ put_at (i * block_words) b words.old }
{
    storage::sync_log(words, i * WORDS, &b);
}

// Whether a word is above its most; a most of 0 stands for none.
#[tactic(auto, unfolding(crate::specs::Blocks::over_most))]
fn over_most(most: u64, w: u64) -> bool
    ensures { result ≡ over_most most w }
{
    most != 0 && most < w
}

// Whether some word is above its most.
pub fn above_most(b: Block, most: Block) -> bool
    ensures { result ≡ above_most most b }
{
    b.iter().zip(most.iter()).any(|(w, m)| over_most(*m, *w))
}

// A word of 32 bits; a larger one, which no block that means something has, is read as 0.
#[tactic(auto, unfolding(crate::specs::Blocks::small))]
fn small(w: u64) -> u32
    ensures { result ≡ small w }
{
    u32::try_from(w).unwrap_or(0)
}

pub fn ballot(round: u64, priority: u64, pid: u64) -> Ballot
    ensures { result ≡ ballot_of round priority pid }
{
    Ballot {
        n: small(round),
        priority: small(priority),
        pid,
    }
}

// The three words of a ballot, whose type says that round and priority are of 32 bits.
pub fn ballot_words(b: Ballot) -> [u64; 3]
    ensures value { result ≡ ballot_words b }
    ensures narrow { Narrow b }
{
    [u64::from(b.n), u64::from(b.priority), b.pid]
}
