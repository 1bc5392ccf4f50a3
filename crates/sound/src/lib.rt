// Are the parts of a system sound? Decided for every value whatever. The test of a whole system stands in
// crate integrity, where the system is kept.
#![tactic(auto)]

ghost use Rattle.std.specs.Prelude.{◌≡◌, eqb};
ghost use Rattle.view.specs.Logic.{pick};
ghost use Rattle.view.specs.View.{has};
ghost use Rattle.sound.specs.Sound.{in_range, sound_proposal, sound_message, sound_pending, sound_variables};

use channel::Message;
use system::{Proposal, Variables};
use view::{GroupIndex, ProcessId, has, within};

fn in_range(low: u8, high: u8, i: GroupIndex) -> bool
    ensures { result ≡ in_range low high i.0 }
{
    low <= i.0 && i.0 <= high
}

// An index from 2 to 32 and a view of processes 1 to n with both sender and receiver in it.
#[tactic(auto, unfolding(crate::specs::Sound::sound_proposal))]
fn sound_proposal(n: u8, q: ProcessId, p: ProcessId, view: u8, i: GroupIndex) -> bool
    ensures { result ≡ sound_proposal n q.0 p.0 view i.0 }
{
    in_range(2, 32, i) & within(n, view) & has(view, q) & has(view, p)
}

// A message from q to p.
#[tactic(auto, unfolding(crate::specs::Sound::sound_message))]
pub fn sound_message(n: u8, q: ProcessId, p: ProcessId, m: Message) -> bool
    ensures { result ≡ sound_message n q.0 p.0 m }
{
    match m {
        Message::Propose(view, i) => sound_proposal(n, q, p, view, i),
        Message::Retry(old, new) => in_range(2, 32, old) && in_range(old.0 + 1, 33, new),
        Message::Acc(i) => in_range(2, 32, i),
        Message::Commit(view, i) => sound_proposal(n, q, p, view, i),
    }
}

// What p has recorded from q.
#[tactic(auto, unfolding(crate::specs::Sound::sound_pending))]
pub fn sound_pending(n: u8, q: ProcessId, p: ProcessId, x: Option<Proposal>) -> bool
    ensures { result ≡ sound_pending n q.0 p.0 x }
{
    match x {
        None => true,
        Some(r) => sound_proposal(n, q, p, r.view, r.index),
    }
}

#[tactic(auto, unfolding(crate::specs::Sound::sound_variables))]
pub fn sound_variables(n: u8, p: ProcessId, x: Variables) -> bool
    ensures { result ≡ sound_variables n p.0 x }
{
    in_range(2, 33, x.next)
        & in_range(1, 32, x.propout)
        & within(n, x.view)
        & within(n, x.proposal)
        & within(n, x.acks)
        & has(x.view, p)
        & proposal_fits(p, x)
}

// "the last proposed view is empty if PropOut is 1 and otherwise contains its own unit"
#[tactic(auto, unfolding(view::specs::Logic::pick))]
fn proposal_fits(p: ProcessId, x: Variables) -> bool
    ensures { result ≡ pick (eqb x.propout.0 1) (eqb x.proposal 0) (has x.proposal p.0) }
{
    if x.propout.0 == 1 {
        x.proposal == 0
    } else {
        has(x.proposal, p)
    }
}
