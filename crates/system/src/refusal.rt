// The refusal table of document 01, with the numbers that document 02 adds: `number` of specs/Refusal.antt has them. Which of
// several refusals is given is the definitions' to say: 10 and 11 stand "in the place of 5 in the order", 12 "after 6 and
// before 7", 13 "after 4 and before 5", 14 "after 2".
ghost use Rattle.std.specs.Prelude.{◌≡◌};
ghost use Rattle.system.specs.Refusal.{number, answer_number};

use std::convert::From;

#[derive(Clone, Copy, PartialEq, Eq)]
pub enum Refusal {
    // "the table is not sound"
    Unsound = 1,
    // "a unit number in the step is not 1 to n, or a fresh table is wanted of a wrong size"
    Stranger = 2,
    // "the unit that would act has stopped"
    Crashed = 3,
    // "a report names a unit beyond n, or lacks its own unit"
    OddView = 4,
    // "taking from an empty line"
    NothingThere = 5,
    // "a report by the least unit of its view with PropOut 32; a Retry that would be acted on, with new
    // 33"
    HistoryFull = 6,
    // "a message of this step goes to a unit that has not stopped, over a line that already holds 8"
    ChannelFull = 7,
    // "a sheet line is not of the form below"
    BadLine = 8,
    // "a sheet of more than 60,000 bytes"
    LongSheet = 9,
    // "An answer with no record gets its own number"
    NoRecord = 10,
    // "and so does one whose recorded view is not the local view"
    OtherView = 11,
    // "cut too late, if k is not below that number": the number of messages that the step would send
    CutTooLate = 12,
    // "a report that brings back a unit q is refused unless, at some moment since p's latest suspicion of
    // q (that moment counted), q's local view lacked p"
    EarlyTrust = 13,
    // "too deep, for depth above 8 or more than 2 units"
    TooDeep = 14,
}

impl From<Refusal> for u8 {
    ghost from_gives = { λ r k. k ≡ number r };

    fn from(r: Refusal) -> u8 {
        r as u8
    }
}

// The number of an answer: 0 where the step is done.
pub fn number_of(answer: Result<(), Refusal>) -> u8
    ensures { result ≡ answer_number answer }
{
    match answer {
        Ok(()) => 0,
        Err(r) => u8::from(r),
    }
}
