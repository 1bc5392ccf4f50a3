// The settling run: takes and answers in rounds, on the image that the caller lends, until a whole
// round does nothing.
#![tactic(auto)]

ghost use Rattle.std.specs.Prelude.{◌≡◌, true};
ghost use Rattle.sound.specs.Sound.{sound_system};
ghost use Rattle.step.specs.Rest.{resting_from, resting_at, at_rest};
ghost use Rattle.image.specs.Image.{system_in};
ghost use Rattle.settling.specs.Settle.{move_of, settling_budget};
ghost use Rattle.settle.specs.Settles.{Settles};

use counting::attempt_tallied;
use image::{blank_image, length_at, pending_at, size, variables_at};
use plan::{Action, Step};
use settling::{Ending, Half};
use system::System;
use system::refusal::Refusal;
use tallies::Tally;
use view::ProcessId;

// What a settling run answers: its steps done, how it ended and what it counts.
#[derive(Clone, Copy)]
pub struct Settling {
    pub steps: u16,
    pub ending: Ending,
    pub tally: Tally,
}

// The same by value: with the system after it.
#[derive(Clone, Copy)]
pub struct SettledSystem {
    pub steps: u16,
    pub ending: Ending,
    pub system: System,
}

// A run stops after so many steps at the latest.
pub const BUDGET: u16 = 7936;

// A settling run on its way, on an image that holds a sound system of n processes: its steps so far,
// and what they count.
#[derive(Drop)]
struct Run<'a> {
    image: &'a mut [u8],
    n: u8,
    budget: u16,
    steps: u16,
    tally: Tally,
    ghost sound: { sound_system (system_in image.now) ≡ true },
}

// What is tried at process p: a take from q, or an answer to q.
#[tactic(auto, unfolding(settling::specs::Settle::move_of))]
fn move_of(half: Half, p: ProcessId, q: ProcessId) -> Action
    ensures { result ≡ move_of half p.0 q.0 }
{
    match half {
        Half::Takes => Action::Receive(q, p),
        Half::Answers => Action::Respond(p, q),
    }
}

impl<'a> Run<'a> {
    ghost use Rattle.std.specs.Prelude.{suc, ◌||◌, not, [], ltb};
    ghost use Rattle.settling.specs.Settle.{tried, tried_at, half_done, round_done, rounds_done, nothing_to_do, ending_of};
    ghost use Rattle.settle.specs.Advances.{progress_of, Advances, Begins};

    // Before the first step.
    #[tactic(auto, unfolding(tallies::specs::Tally::no_tally))]
    fn new(image: &'a mut [u8], budget: u16) -> Run<'a>
        requires { sound_system (system_in image.old) ≡ true }
        ensures { Begins budget image.entry result }
    {
        let n = size(image);
        Run {
            image,
            n,
            budget,
            steps: 0,
            tally: Tally::default(),
        }
    }

    // One take or answer, if the budget is not used up.
    fn try_one(&mut self, action: Action)
        ensures { Advances (tried self.old.budget action) self.old self.new }
    {
        if self.steps < self.budget {
            if let Ok(tally) = attempt_tallied(self.image, Step::whole(action)) {
                self.steps += 1;
                self.tally += tally;
            }
        }
    }

    // Process p, with each of the others and itself, in rising order.
    fn try_at(&mut self, half: Half, p: ProcessId)
        ensures { Advances (tried_at self.old.budget half self.old.n p.0) self.old self.new }
    {
        for q in 1..=self.n {
            self.try_one(move_of(half, p, ProcessId(q)));
        }
    }

    // Half a round: each process in rising order.
    fn half_round(&mut self, half: Half)
        ensures { Advances (half_done self.old.budget half self.old.n) self.old self.new }
    {
        for p in 1..=self.n {
            self.try_at(half, ProcessId(p));
        }
    }

    fn round(&mut self)
        ensures { Advances (round_done self.old.budget self.old.n) self.old self.new }
    {
        self.half_round(Half::Takes);
        self.half_round(Half::Answers);
    }

    // Rounds, until one does nothing: no count says how many those are.
    fn rounds(&mut self)
        ensures { Advances (rounds_done (suc self.old.budget) self.old.budget self.old.n) self.old self.new }
    {
        loop {
            let before = self.steps;
            self.round();
            if self.steps == before {
                return;
            }
        }
    }

    // Would no take and no answer be done? Asked of a copy, in a round that ends with its first step.
    fn nothing_to_do(&self) -> bool
        ensures { result ≡ nothing_to_do (system_in self.now.image.now) }
    {
        let mut copied = blank_image();
        copied.copy_from_slice(self.image);
        let mut run = Run::new(&mut copied, 1);
        run.round();
        run.steps == 0
    }

    // Is the budget used up, and would a further take or answer be done?
    fn is_cut_off(&self) -> bool
        ensures { result ≡ not (ltb self.now.steps self.now.budget || nothing_to_do (system_in self.now.image.now)) }
    {
        self.steps >= self.budget && !self.nothing_to_do()
    }

    // How the run has ended.
    #[tactic(auto, unfolding(settling::specs::Settle::ending_of, view::specs::Logic::pick))]
    fn ending(&self) -> Ending
        ensures { result ≡ ending_of self.now.budget (progress_of self.now []) }
    {
        if self.is_cut_off() {
            Ending::Budget
        } else if at_rest(self.image) {
            Ending::Rest
        } else {
            Ending::Held
        }
    }
}

// Does no message wait from process q to process p, and could p not answer q?
#[tactic(auto, using(crate::proofs::Laws::no_answer, crate::proofs::Laws::no_reply), unfolding(step::specs::Rest::resting_from, step::specs::Rest::idle_from, step::specs::Rest::answerable, step::specs::Rest::matches))]
fn resting_from(image: &[u8], p: ProcessId, q: ProcessId) -> bool
    ensures { result ≡ resting_from (system_in image.now) p.0 q.0 }
{
    let idle = length_at(image, q, p) == 0;
    match pending_at(image, p, q) {
        None => idle,
        Some(r) => {
            let x = variables_at(image, p);
            idle & (x.crashed | (r.view != x.view))
        }
    }
}

fn resting_at(image: &[u8], p: ProcessId) -> bool
    ensures { result ≡ resting_at (system_in image.now) p.0 }
{
    (1..=size(image)).all(|q| resting_from(image, p, ProcessId(q)))
}

fn at_rest(image: &[u8]) -> bool
    ensures { result ≡ at_rest (system_in image.now) }
{
    (1..=size(image)).all(|p| resting_at(image, ProcessId(p)))
}

// The settling run, with a budget of the caller's.
pub fn settle_within(image: &mut [u8], budget: u16) -> Result<Settling, Refusal>
    ensures { Settles budget image.old result image.new }
{
    if !integrity::sound(image) {
        return Err(Refusal::Unsound);
    }
    let mut run = Run::new(image, budget);
    run.rounds();
    Ok(Settling {
        steps: run.steps,
        ending: run.ending(),
        tally: run.tally,
    })
}

// The settling run.
pub fn settle(image: &mut [u8]) -> Result<Settling, Refusal>
    ensures { Settles settling_budget image.old result image.new }
{
    settle_within(image, BUDGET)
}
