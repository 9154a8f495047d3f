// Replays the list on standard input (README.md): each step is given to the box, and its answer and the checksum of its outcome are compared with the list's.
#![tactic(auto)]

use base::{MAX_BUFFERED, MAX_LOG, MAX_MESSAGES, MAX_STORE};
use blocks::WORDS;
use hire_book::BOOK;
use layout_record::RECORD;
use layout_row::ROW;
use std::io;
use std::io::Read;

// How many bytes a turn of reading asks for.
const PART: usize = 65_536;

// How many entries may come with an event.
const ENTRIES: usize = 1024;

// The memory: everything lent to a step, one slice after another from the configuration on, then the event and the entries that come with it.
const RECORD_AT: usize = WORDS;

const ROW_AT: usize = RECORD_AT + RECORD;

const LOG_AT: usize = ROW_AT + ROW;

const CACHED_AT: usize = LOG_AT + MAX_LOG;

const BEST_AT: usize = CACHED_AT + MAX_LOG;

const STORE_AT: usize = BEST_AT + MAX_LOG;

const BOOK_AT: usize = STORE_AT + MAX_STORE;

const EVENT_AT: usize = BOOK_AT + BOOK;

const ENTRIES_AT: usize = EVENT_AT + WORDS;

const MEMORY: usize = ENTRIES_AT + ENTRIES;

// Where the record goes on after the cells of the buffered proposals.
const PLACES: usize = WORDS + MAX_BUFFERED;

// Words of the record that count something, and of a head of the row.
const LOG_LENGTH: usize = 7;

const WAITING: usize = 10;

const BUFFERED: usize = 13;

const OF_BEST: usize = 56;

const OF_CACHED: usize = 75;

const HEAD_START: usize = 14;

const HEAD_COUNT: usize = 15;

// The checksum: a polynomial in halves of words.
const MODULUS: u64 = 1_099_511_627_689;

const FACTOR: u64 = 4_194_301;

const HALF: u64 = 4_294_967_296;

// A command of the list.
#[derive(Clone, Copy)]
enum Command {
    NewBox,
    Words,
    EventWord,
    Entries,
    Step,
}

// What was read of the list so far: a number, the command it belongs to with the numbers that follow it, and how many entries wait for the next step.
#[derive(Clone, Copy, Default)]
struct Machine {
    number: Option<u64>,
    command: Option<Command>,
    // Kept: an array with its count beside it, since the project's memory is fixed and nothing is on the heap.
    args: [u64; 4],
    count: usize,
    entries: u64,
    steps: u64,
    differences: u64,
}

impl Command {
    fn of(number: u64) -> Option<Command> {
        match number {
            1 => Some(Command::NewBox),
            2 => Some(Command::Words),
            3 => Some(Command::EventWord),
            4 => Some(Command::Entries),
            5 => Some(Command::Step),
            _ => None,
        }
    }

    // How many numbers follow it.
    fn arity(self) -> usize {
        match self {
            Command::NewBox => 0,
            Command::Words => 3,
            Command::EventWord | Command::Entries => 2,
            Command::Step => 4,
        }
    }
}

fn mix(sum: u64, word: u64) -> u64 {
    let low = ((sum % MODULUS) * FACTOR + word % HALF) % MODULUS;
    (low * FACTOR + word / HALF) % MODULUS
}

fn mix_part(sum: u64, words: &[u64]) -> u64 {
    words.iter().fold(sum, |s, word| mix(s, *word))
}

// A word, 0 past the end.
fn word(words: &[u64], at: usize) -> u64 {
    words.get(at).copied().unwrap_or(0)
}

// A count that words tell, and no more than there is room for.
fn at_most(n: u64, most: usize) -> usize {
    (n as usize).min(most)
}

// One message: its head but for where its entries lie, then the entries.
fn mix_message(sum: u64, head: &[u64], store: &[u64]) -> u64 {
    let start = word(head, HEAD_START) as usize;
    let count = word(head, HEAD_COUNT);
    let s = mix_part(sum, storage::first(head, HEAD_START));
    mix_part(mix(s, count), storage::part(store, start, count as usize))
}

fn mix_queue(sum: u64, row: &[u64], store: &[u64], count: usize) -> u64 {
    row.chunks(WORDS)
        .take(count)
        .fold(sum, |s, head| mix_message(s, head, store))
}

// All of a box that means something: record, log, both syncs, book, and the queue with its entries.
fn checksum(memory: &[u64]) -> u64 {
    let record = storage::part(memory, RECORD_AT, RECORD);
    let row = storage::part(memory, ROW_AT, ROW);
    let store = storage::part(memory, STORE_AT, MAX_STORE);
    let length = at_most(word(record, LOG_LENGTH), MAX_LOG);
    let waiting = at_most(word(record, WAITING), MAX_MESSAGES);
    let buffered = at_most(word(record, BUFFERED), MAX_BUFFERED);
    let of_best = at_most(word(record, OF_BEST), MAX_LOG);
    let of_cached = at_most(word(record, OF_CACHED), MAX_LOG);
    let mut s = mix_part(1, storage::first(record, WORDS));
    s = mix_part(s, storage::part(record, WORDS, buffered));
    s = mix_part(s, storage::part(record, PLACES, RECORD - PLACES));
    s = mix_part(s, storage::part(memory, LOG_AT, length));
    s = mix_part(s, storage::part(memory, CACHED_AT, of_cached));
    s = mix_part(s, storage::part(memory, BEST_AT, of_best));
    s = mix_part(s, storage::part(memory, BOOK_AT, BOOK));
    mix_queue(s, row, store, waiting)
}

// So many words from a place on, as far as the memory goes.
fn fill(memory: &mut [u64], at: u64, count: u64, word: u64) {
    let start = (at as usize).min(memory.len());
    let end = (count as usize).min(memory.len() - start) + start;
    memory[start..end].fill(word);
}

// Gives the box a step, and compares what it answers with the list's three numbers.
fn step(memory: &mut [u64; MEMORY], entries: u64, args: [u64; 4]) -> bool {
    let (configuration, rest) = memory.split_at_mut(WORDS);
    let (record, rest) = rest.split_at_mut(RECORD);
    let (row, rest) = rest.split_at_mut(ROW);
    let (log, rest) = rest.split_at_mut(MAX_LOG);
    let (cached, rest) = rest.split_at_mut(MAX_LOG);
    let (best, rest) = rest.split_at_mut(MAX_LOG);
    let (store, rest) = rest.split_at_mut(MAX_STORE);
    let (book, rest) = rest.split_at_mut(BOOK);
    let (event, given) = rest.split_at_mut(WORDS);
    let mut dropped: u64 = 0;
    let mut handed_out: u64 = 0;
    let no = depot_link::depots_step_lent(
        configuration,
        record,
        row,
        log,
        cached,
        best,
        store,
        book,
        event,
        storage::first(given, entries as usize),
        &mut dropped,
        &mut handed_out,
    );
    u64::from(no) == args[0] && dropped == args[1] && handed_out == args[2]
}

// A number with a digit after it; the number alone where that would pass the largest.
fn shifted(n: u64, d: u64) -> u64 {
    n.checked_mul(10)
        .and_then(|tens| tens.checked_add(d))
        .unwrap_or(n)
}

// So many more, where both are within the memory.
fn joined(n: u64, more: u64) -> u64 {
    let most = MEMORY as u64;
    if n < most && more < most { n + more } else { n }
}

impl Machine {
    // The box had its step: the event and the entries are gone.
    fn counted(&mut self, is_alike: bool) {
        self.entries = 0;
        self.steps = self.steps.saturating_add(1);
        if !is_alike {
            self.differences = self.differences.saturating_add(1);
        }
    }

    // So many equal entries are set beside those that wait.
    fn queued(&mut self, memory: &mut [u64; MEMORY], count: u64, word: u64) {
        fill(memory, joined(ENTRIES_AT as u64, self.entries), count, word);
        self.entries = joined(self.entries, count);
    }

    // A command has its numbers.
    fn perform(&mut self, memory: &mut [u64; MEMORY], command: Command) {
        let [first, second, third, fourth] = self.args;
        match command {
            Command::NewBox => memory.fill(0),
            Command::Words => fill(memory, first, second, third),
            Command::EventWord => {
                if first < WORDS as u64 {
                    memory[EVENT_AT + first as usize] = second;
                }
            }
            Command::Entries => self.queued(memory, first, second),
            Command::Step => {
                let is_answered = step(memory, self.entries, self.args);
                let is_alike = is_answered && checksum(memory) == fourth;
                memory[EVENT_AT..].fill(0);
                self.counted(is_alike);
            }
        }
    }

    // A number of the list: a command, or what follows one. A number that is no command's is passed over.
    fn take(&mut self, memory: &mut [u64; MEMORY], n: u64) {
        match self.command {
            None => self.command = Command::of(n),
            Some(_) => {
                if self.count < self.args.len() {
                    self.args[self.count] = n;
                    self.count += 1;
                }
            }
        }
        if let Some(command) = self.command
            && command.arity() <= self.count
        {
            self.perform(memory, command);
            self.command = None;
            self.count = 0;
        }
    }

    // A byte of the list: a digit, or anything that ends a number.
    fn byte(&mut self, memory: &mut [u64; MEMORY], b: u8) {
        match b {
            b'0'..=b'9' => {
                let before = self.number.unwrap_or(0);
                self.number = Some(shifted(before, u64::from(b - b'0')));
            }
            _ => {
                if let Some(n) = self.number.take() {
                    self.take(memory, n);
                }
            }
        }
    }

    fn feed(&mut self, memory: &mut [u64; MEMORY], bytes: &[u8]) {
        for b in bytes {
            self.byte(memory, *b);
        }
    }
}

// A proved loop has to end, and nothing says that the input does: the turns are bounded by a number that no run uses up.
fn read_all(input: &mut impl Read, memory: &mut [u64; MEMORY]) -> io::Result<Machine> {
    let mut m = Machine::default();
    for _ in 0..u64::MAX {
        let mut part = [0u8; PART];
        let n = input.read(&mut part)?;
        m.feed(memory, &part[..n]);
        if n == 0 {
            break;
        }
    }
    Ok(m)
}

fn main(rt: HostRuntime) -> io::Result<()> {
    let mut memory = [0u64; MEMORY];
    let mut input = rt.reader();
    let m = read_all(&mut input, &mut memory)?;
    println!(rt; "steps {}", m.steps)?;
    println!(rt; "differences {}", m.differences)
}
