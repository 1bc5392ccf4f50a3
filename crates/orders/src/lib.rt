// All orders up to a depth: every run of a fresh system in which the link and the processes move in
// turn. The link's turn calls the processes' turn, and that calls the link's.
#![tactic(auto)]

ghost use Rattle.std.specs.Prelude.{◌+◌, ◌≤◌, ◌<◌, ◌≡◌, true, [], ◌∷◌, length};
ghost use Rattle.view.specs.Logic.{is_one_of};
ghost use Rattle.view.specs.View.{everyone};
ghost use Rattle.system.specs.Fresh.{fresh_system};
ghost use Rattle.sound.specs.Sound.{sound_system};
ghost use Rattle.image.specs.Image.{system_in};
ghost use Rattle.orders.specs.Orders.{ended_at, link_turn, process_turn, old_at, all_old_at, goes_beyond, run_counts_of, walked, together};
ghost use Rattle.orders.specs.Walks.{link_move_at, process_move_at, Walks, Tries};

use engine::attempt;
use fresh::put_fresh;
use image::{blank_image, entry_at};
use plan::{Action, Step};
use std::ops::Add;
use system::refusal::Refusal;
use view::{GroupIndex, ProcessId, everyone, is_one_of};

// How many runs there are, and how many of them end with an entry beyond index 1.
#[derive(Clone, Copy, PartialEq, Eq)]
pub struct RunCounts {
    pub runs: u32,
    pub entered: u32,
}

// Two counts added up, of any two, so that nobody has to ask first: a sum past the end stays at the largest number.
impl Add for RunCounts {
    type Output = RunCounts;

    ghost add_gives = { λ a b c. c ≡ together a b };

    fn add(self, other: RunCounts) -> RunCounts {
        RunCounts {
            runs: self.runs.saturating_add(other.runs),
            entered: self.entered.saturating_add(other.entered),
        }
    }
}

// The deepest walk, and the largest system that is walked.
pub const DEEPEST: u8 = 8;

pub const LARGEST: u8 = 2;

#[tactic(auto, unfolding(crate::specs::Orders::old_at, system::specs::System::entry_in))]
fn old_at(image: &[u8], p: ProcessId, i: GroupIndex) -> bool
    ensures { result ≡ old_at (system_in image.now) p.0 i.0 }
{
    (i.0 <= 1) | (entry_at(image, p, i) == 0)
}

fn all_old_at(image: &[u8], p: ProcessId) -> bool
    ensures { result ≡ all_old_at (system_in image.now) p.0 }
{
    (1..=32).all(|i| old_at(image, p, GroupIndex(i)))
}

// Has one of the n processes an entry beyond index 1?
fn goes_beyond(image: &[u8], n: u8) -> bool
    ensures { result ≡ goes_beyond n (system_in image.now) }
{
    !(1..=n).all(|p| all_old_at(image, ProcessId(p)))
}

// A run that ends here.
#[tactic(auto, unfolding(crate::specs::Orders::run_counts_of, crate::specs::Orders::entered_among, view::specs::Logic::pick))]
fn end_of(image: &[u8], n: u8) -> RunCounts
    ensures { result ≡ run_counts_of n (ended_at (system_in image.now) ∷ []) }
{
    RunCounts {
        runs: 1,
        entered: u32::from(goes_beyond(image, n)),
    }
}

// How many moves the link tries at each process: a report of each view of n processes but the empty
// one, and its stop.
#[tactic(auto, using(crate::proofs::Moves::few_views))]
fn moves_at(n: u8) -> u8
    requires { is_one_of 2 n ≡ true }
    ensures { result ≡ everyone n + 1 }
{
    everyone(n) + 1
}

// Its move at place k. Nested loops are no plainer: they would try and add up in two places of a turn, and the processes' turn in
// four.
#[tactic(auto, unfolding(crate::specs::Walks::link_move_at, view::specs::Logic::pick))]
fn link_move(each: u8, k: u8) -> Action
    requires { (2 ≤ each) × (each ≤ 4) × (k < 8) }
    ensures { result ≡ link_move_at each k }
{
    let p = ProcessId(k / each + 1);
    let view = k % each + 1;
    if view == each {
        Action::Crash(p)
    } else {
        Action::Report(p, view)
    }
}

// The move of the processes at place k: a take on every channel, and then an answer of every process
// to every one.
#[tactic(auto, using(crate::proofs::Moves::few_channels), unfolding(crate::specs::Walks::process_move_at, view::specs::Logic::pick))]
fn process_move(n: u8, k: u8) -> Action
    requires { (is_one_of 2 n ≡ true) × (k < 8) }
    ensures { result ≡ process_move_at n k }
{
    let p = ProcessId(k / n % n + 1);
    let q = ProcessId(k % n + 1);
    if k < n * n {
        Action::Receive(q, p)
    } else {
        Action::Respond(p, q)
    }
}

// A move on a copy of the image: is it done?
#[tactic(auto, using(crate::proofs::Laws::tried_move))]
fn try_move(image: &[u8], copied: &mut [u8], action: Action) -> bool
    requires { (sound_system (system_in image.now) ≡ true) × (length image.now ≡ length copied.old) }
    ensures { Tries action (system_in image.now) result copied.new }
{
    copied.copy_from_slice(image);
    attempt(copied, Step::whole(action)).is_ok()
}

// The runs of so many turns more, the link's first: it passes, or makes one of its moves.
// A rule of the project keeps the two turns apart: it asks that each calls the other.
#[cycle(link_turn_process_turn)]
fn link_turn(image: &[u8], n: u8, depth: u8) -> RunCounts
    requires { Walks n depth image.now }
    ensures { result ≡ run_counts_of n (link_turn depth n (system_in image.now)) }
{
    if depth == 0 {
        return end_of(image, n);
    }
    let each = moves_at(n);
    let mut total = process_turn(image, n, depth - 1);
    let mut copied = blank_image();
    for k in 0..n * each {
        if try_move(image, &mut copied, link_move(each, k)) {
            total = total + process_turn(&copied, n, depth - 1);
        }
    }
    total
}

// The same, the processes' turn first.
#[cycle(link_turn_process_turn)]
fn process_turn(image: &[u8], n: u8, depth: u8) -> RunCounts
    requires { Walks n depth image.now }
    ensures { result ≡ run_counts_of n (process_turn depth n (system_in image.now)) }
{
    if depth == 0 {
        return end_of(image, n);
    }
    let mut total = link_turn(image, n, depth - 1);
    let mut copied = blank_image();
    for k in 0..2 * n * n {
        if try_move(image, &mut copied, process_move(n, k)) {
            total = total + link_turn(&copied, n, depth - 1);
        }
    }
    total
}

// The walk from the fresh system of 1 or 2 processes.
fn walk(n: u8, depth: u8) -> RunCounts
    requires { (is_one_of 2 n ≡ true) × (depth ≤ 8) }
    ensures { result ≡ run_counts_of n (link_turn depth n (fresh_system n)) }
{
    let mut image = blank_image();
    put_fresh(&mut image, n);
    link_turn(&image, n, depth)
}

// The runs of exactly that depth from a fresh system of n processes, and those of them that end with
// an entry beyond index 1.
pub fn count_runs(n: u8, depth: u8) -> Result<RunCounts, Refusal>
    ensures { result ≡ walked n depth }
{
    if !is_one_of(8, ProcessId(n)) {
        Err(Refusal::Stranger)
    } else if (n > LARGEST) | (depth > DEEPEST) {
        Err(Refusal::TooDeep)
    } else {
        Ok(walk(n, depth))
    }
}
