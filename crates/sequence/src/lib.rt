// Sequence numbers of the accept phase, and what a message's number says beside one's own (util.rs).
#![tactic(auto)]

ghost use Rattle.std.specs.Prelude.{◌≡◌};
ghost use Rattle.sequence.specs.Sequence.{status_of, first};

// A session and a counter within it; compared in that order.
#[derive(Clone, Copy, Debug, PartialEq, Eq, PartialOrd, Ord, Default)]
pub struct SequenceNumber {
    pub session: u64,
    pub counter: u64,
}

#[derive(Clone, Copy, Debug, PartialEq, Eq)]
pub enum MessageStatus {
    Expected,
    DroppedPreceding,
    Outdated,
}

impl SequenceNumber {
    // Kept: a public function whose promise the crates above and pins_rules name; it calls the derived one.
    pub fn default() -> SequenceNumber
        ensures { result ≡ first }
    {
        Default::default()
    }

    // Total: where the own counter is at its top, no counter is one higher.
    #[tactic(auto, unfolding(crate::specs::Sequence::status_of))]
    pub fn check_msg_status(self, msg_seq_num: SequenceNumber) -> MessageStatus
        ensures { result ≡ status_of self msg_seq_num }
    {
        let expected = self.counter.checked_add(1);
        if msg_seq_num.session == self.session && Some(msg_seq_num.counter) == expected {
            MessageStatus::Expected
        } else if msg_seq_num <= self {
            MessageStatus::Outdated
        } else {
            MessageStatus::DroppedPreceding
        }
    }
}
