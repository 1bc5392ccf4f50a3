// What a settling run is: its types here, its definition in specs/, what is true of it in proofs/. The code is crate settle.
#![tactic(auto)]

// How a settling run ended.
#[derive(Clone, Copy, PartialEq, Eq)]
pub enum Ending {
    // No message waits, and no answer could be given.
    Rest,
    Held,
    // The budget is used up, and a further take or answer would be done.
    Budget,
}

// The two halves of a round.
#[derive(Clone, Copy)]
pub enum Half {
    Takes,
    Answers,
}
