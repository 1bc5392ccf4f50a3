// What a step asks of the image and does to it, part by part: who may act, messages go out, a process stops, others are doubted.
#![tactic(auto)]

ghost use Rattle.std.specs.Prelude.{◌≡◌};
ghost use Rattle.std.specs.Iterator.{YieldsFirstBy, item_count};
ghost use Rattle.system.specs.System.{variables_at, channel_at, with_trust, trusting, sent, sent_if_named, broadcasted, takes_if_named, room_for};
ghost use Rattle.step.specs.Step.{guarded, taken_off, departed, doubted, crashed_at, crashed_if};
ghost use Rattle.image.specs.Image.{system_in, Becomes};
ghost use Rattle.effects.specs.Named.{members_of, takes, suspecting};

use channel::Message;
use image::{clear, length_at, push, put_trust, put_variables, size, trust_at, variables_at};
use plan::{Reach, Scope};
use system::refusal::Refusal;
use view::{ProcessId, has, is_one_of, least, switched};

// The processes that a view names, the least first.
#[derive(Clone, Copy, Drop)]
pub struct Members {
    // Those that are still to come.
    rest: u8,
}

pub fn members_of(view: u8) -> Members
    ensures { result ≡ record { rest = view } }
{
    Members { rest: view }
}

impl Iterator for Members {
    type Item = ProcessId;

    ghost next_gives = { YieldsFirstBy (λ p. p.0) (λ s. members_of s.rest) };

    ghost remaining = { item_count (λ s. members_of s.rest) };

    fn next(&mut self) -> Option<ProcessId> {
        if self.rest == 0 {
            return None;
        }
        let p = least(self.rest);
        self.rest &= self.rest - 1;
        Some(p)
    }
}

// Refusals 2 and 3: process p acts, and the action names process q too.
#[tactic(auto, unfolding(view::specs::Logic::pick))]
pub fn guard(image: &[u8], p: ProcessId, q: ProcessId) -> Result<(), Refusal>
    ensures { result ≡ guarded (system_in image.now) p q }
{
    let n = size(image);
    if !(is_one_of(n, p) & is_one_of(n, q)) {
        Err(Refusal::Stranger)
    } else if variables_at(image, p).crashed {
        Err(Refusal::Crashed)
    } else {
        Ok(())
    }
}

// Process k has crashed, or the channel from the actor to it has room once the taken message is off.
#[tactic(auto, using(crate::proofs::Laws::takes_with_room, crate::proofs::Laws::takes_when_full))]
fn takes(image: &[u8], c: Scope, k: ProcessId) -> bool
    ensures { result ≡ takes (taken_off (system_in image.now) c) c.actor.0 k.0 }
{
    let p = c.actor;
    let q = c.partner;
    let len = length_at(image, p, k);
    // The message that is taken comes off the actor's channel to itself.
    let own = c.takes & (q == p) & (k == p);
    len < 8 || variables_at(image, k).crashed | (own & (len == 8))
}

// Process k is no addressee; or it has crashed, or its channel from the actor has room.
#[tactic(auto, unfolding(crate::specs::Named::takes, system::specs::System::takes_if_named))]
pub fn takes_if_named(image: &[u8], c: Scope, to: u8, k: ProcessId) -> bool
    ensures { result ≡ takes_if_named (taken_off (system_in image.now) c) c.actor.0 to k.0 }
{
    !has(to, k) || takes(image, c, k)
}

// Refusal 7 is not given: each addressee takes the message.
pub fn room(image: &[u8], c: Scope, to: u8) -> bool
    ensures { result ≡ room_for (taken_off (system_in image.now) c) c.actor.0 to }
{
    members_of(to).all(|k| takes(image, c, k))
}

// One message from process q to process p. To a crashed process it vanishes.
#[tactic(auto, unfolding(system::specs::System::sent, view::specs::Logic::pick))]
fn send(image: &mut [u8], q: ProcessId, p: ProcessId, m: Message)
    ensures { Becomes (sent (system_in image.old) q.0 p.0 m) image.old image.new }
{
    if !variables_at(image, p).crashed {
        push(image, q, p, m);
    }
}

// The same, if the view names process p.
#[tactic(auto, unfolding(system::specs::System::sent_if_named, view::specs::Logic::pick))]
pub fn send_if_named(image: &mut [u8], q: ProcessId, to: u8, message: Message, p: ProcessId)
    ensures { Becomes (sent_if_named q.0 to message p.0 (system_in image.old)) image.old image.new }
{
    if has(to, p) {
        send(image, q, p, message);
    }
}

// One message from process q to every process of a view, in rising order.
fn broadcast(image: &mut [u8], q: ProcessId, to: u8, m: Message)
    ensures { Becomes (broadcasted (system_in image.old) q.0 to m) image.old image.new }
{
    for p in members_of(to) {
        send(image, q, p, m);
    }
}

// Process p stops: every channel towards it is emptied.
pub fn crash(image: &mut [u8], p: ProcessId)
    ensures { Becomes (crashed_at (system_in image.old) p.0) image.old image.new }
{
    let mut x = variables_at(image, p);
    x.crashed = true;
    put_variables(image, p, x);
    for q in 1..=8 {
        clear(image, ProcessId(q), p);
    }
}

// Process p may trust process q again, or may not.
#[tactic(auto, unfolding(system::specs::System::trusting, system::specs::System::trust_at))]
fn trust(image: &mut [u8], p: ProcessId, q: ProcessId, on: bool)
    ensures { Becomes (with_trust (system_in image.old) (trusting (system_in image.old).trust p.0 q.0 on)) image.old image.new }
{
    let set = trust_at(image, p);
    put_trust(image, p, switched(set, q, on));
}

// Process q leaves the view of process p, where it is there.
#[tactic(auto, unfolding(step::specs::Step::departed, system::specs::System::with_trust, view::specs::Logic::pick))]
fn depart(image: &mut [u8], p: ProcessId, old: u8, q: ProcessId)
    requires { old ≡ (variables_at (system_in image.old) p.0).view }
    ensures { Becomes (with_trust (system_in image.old) (departed (system_in image.old) p.0 q.0 (system_in image.old).trust)) image.old image.new }
{
    if has(old, q) {
        let view = variables_at(image, q).view;
        trust(image, p, q, !has(view, p));
    }
}

// Process p comes to suspect process q, or goes on to.
#[tactic(auto, unfolding(crate::specs::Named::suspecting, system::specs::System::with_trust))]
fn suspect(image: &mut [u8], p: ProcessId, old: u8, q: ProcessId)
    requires { old ≡ (variables_at (system_in image.old) p.0).view }
    ensures { Becomes (suspecting (system_in image.old) p.0 q.0) image.old image.new }
{
    depart(image, p, old, q);
    trust(image, q, p, true);
}

// Process p, whose view is still the old one, comes to suspect the processes of a set, or goes on to.
#[tactic(auto, using(crate::proofs::Named::same_variables))]
pub fn doubt(image: &mut [u8], p: ProcessId, suspects: u8)
    ensures { Becomes (doubted (system_in image.old) p.0 suspects) image.old image.new }
{
    let old = variables_at(image, p).view;
    for q in members_of(suspects) {
        suspect(image, p, old, q);
    }
}

// Process p stops, where it is cut.
#[tactic(auto, unfolding(step::specs::Step::crashed_if, view::specs::Logic::pick))]
pub fn crash_if(image: &mut [u8], stops: bool, p: ProcessId)
    ensures { Becomes (crashed_if stops (system_in image.old) p.0) image.old image.new }
{
    if stops {
        crash(image, p);
    }
}

// The message of process p goes out, and then p stops, where it is cut. Inlined: a step that sends takes a
// tenth less.
#[inline(always)]
pub fn send_out(image: &mut [u8], p: ProcessId, reach: Reach, m: Message)
    ensures { Becomes (crashed_if reach.stops (broadcasted (system_in image.old) p.0 reach.addressees m) p.0) image.old image.new }
{
    broadcast(image, p, reach.addressees, m);
    crash_if(image, reach.stops, p);
}
