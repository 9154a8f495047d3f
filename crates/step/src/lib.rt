// What a step answers and hands back beside what it was lent. The rules of the whole step stand in specs/Step.antt.
#![tactic(auto)]

ghost use Rattle.std.specs.Prelude.{◌≡◌};
ghost use Rattle.base.specs.Refusal.{number_of};

use base::Refusal;
use messages::Row;
use record::Record;

// The refusal (docs/RULES.md, R2; 0: taken); how many buffered entries were dropped at a read quorum; how many messages a drain handed out.
#[derive(Clone, Copy, Debug, PartialEq, Eq)]
pub struct Answer {
    // Kept: the number, and no Result, since `refused_with`, `taken_to` and the theorems over them (refusal_laws, step_laws, runs) name it, and C is given it.
    pub no: u32,
    pub dropped: usize,
    pub handed_out: usize,
}

#[derive(Clone, Copy)]
pub struct Step {
    pub answer: Answer,
    pub node: Record,
    pub row: Row,
}

impl Step {
    // Refused: everything is handed back as found.
    pub fn refused(refusal: Refusal, node: Record, row: Row) -> Self
        ensures { result ≡ record { answer = record { no = number_of refusal; dropped = 0; handed_out = 0 }; node = node; row = row } }
    {
        let answer = Answer {
            no: refusal.into(),
            dropped: 0,
            handed_out: 0,
        };
        Step { answer, node, row }
    }
}
