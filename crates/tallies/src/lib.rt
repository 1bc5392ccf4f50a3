// The tally: what has become of the messages, and of the proposals. One small record serves a step, a
// settling run, a sheet and a class.
#![tactic(auto)]

ghost use Rattle.std.specs.Prelude.{◌+◌, ◌≡◌};
ghost use Rattle.tallies.specs.Tally.{plus, capped};

pub mod share;

use std::ops::{Add, AddAssign};

// Document 02, S-7: "messages sent, taken, waiting, and lost to a stop"; and proposals, with those of
// them for which a Commit was sent. `Tally::default()` is nothing counted yet, `no_tally`.
#[derive(Clone, Copy, PartialEq, Eq, Default)]
pub struct Tally {
    pub sent: u64,
    pub taken: u64,
    pub waiting: u64,
    pub lost: u64,
    pub proposals: u64,
    pub committed: u64,
}

// Two tallies added up: a count past the end stays at the largest number.
impl Add for Tally {
    type Output = Tally;

    ghost add_gives = { λ a b t. t ≡ capped (plus a b) };

    #[tactic(auto, unfolding(crate::specs::Tally::capped, crate::specs::Tally::plus))]
    fn add(self, other: Tally) -> Tally {
        Tally {
            sent: self.sent.saturating_add(other.sent),
            taken: self.taken.saturating_add(other.taken),
            waiting: self.waiting.saturating_add(other.waiting),
            lost: self.lost.saturating_add(other.lost),
            proposals: self.proposals.saturating_add(other.proposals),
            committed: self.committed.saturating_add(other.committed),
        }
    }
}

// "changed where it stands": adds one tally to another.
impl AddAssign for Tally {
    ghost add_assign_gives = { λ old one t. t ≡ capped (plus old one) };

    fn add_assign(&mut self, one: Tally) {
        *self = *self + one;
    }
}
