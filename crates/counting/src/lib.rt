// What a step counts: read off the image, and off the plan that is carried out.
#![tactic(auto)]

ghost use Rattle.std.specs.Prelude.{◌≤◌, ◌≡◌};
ghost use Rattle.system.specs.System.{variables_at, channel_at};
ghost use Rattle.system.specs.Refusal.{answer_number};
ghost use Rattle.plan.specs.Scope.{scope_of};
ghost use Rattle.step.specs.Step.{plan_of, taken_off};
ghost use Rattle.events.specs.Counts.{waiting_towards, waiting_in, still_waiting, vanished, lost_at, is_commit, plan_counts, plan_tally, step_tally};
ghost use Rattle.image.specs.Image.{system_in};
ghost use Rattle.engine.specs.Engine.{Attempts};
ghost use Rattle.plan.specs.ByValue.{planned, planned_of};
ghost use Rattle.counting.specs.Tallied.{counted, Counts};

use channel::Message;
use effects::members_of;
use engine::attempt;
use image::{front_at, length_at, pending_at, size, trust_at, variables_at};
use plan::plans::{self, cut_by, scope_of};
use plan::{Action, Plan, Scope, Step};
use system::refusal::Refusal;
use tallies::Tally;
use view::{GroupIndex, ProcessId, count, has};

// How many messages wait from process q towards the actor, once the taken one is off.
#[tactic(auto, using(crate::proofs::Counting::taken_len), unfolding(view::specs::Logic::one, view::specs::Logic::pick))]
fn waiting_from(image: &[u8], c: Scope, q: ProcessId) -> u8
    ensures { result ≡ (channel_at (taken_off (system_in image.now) c) q.0 c.actor.0).len }
{
    let taken = u8::from(c.takes & (q == c.partner));
    length_at(image, q, c.actor).saturating_sub(taken)
}

// How many messages wait on the channels towards the actor, once the taken one is off.
fn waiting_towards(image: &[u8], c: Scope) -> u64
    ensures { (result ≡ waiting_towards (taken_off (system_in image.now) c) c.actor.0) × (result ≤ 65025) }
{
    let from = |q| u64::from(waiting_from(image, c, ProcessId(q)));
    (1..=size(image)).map(from).sum()
}

// How many messages wait on all channels.
fn waiting_in(image: &[u8]) -> u64
    ensures { result ≡ waiting_in (system_in image.now) }
{
    let towards = |p| waiting_towards(image, Scope::facing(ProcessId(p), ProcessId(p)));
    (1..=size(image)).map(towards).sum()
}

// What waits in the end, as a tally.
#[tactic(auto, unfolding(events::specs::Counts::still_waiting, tallies::specs::Tally::no_tally))]
pub fn still_waiting(image: &[u8]) -> Tally
    ensures { result ≡ still_waiting (system_in image.now) }
{
    Tally {
        waiting: waiting_in(image),
        ..Tally::default()
    }
}

// How many of the addressees have crashed.
fn vanished(image: &[u8], to: u8) -> u64
    ensures { (result ≡ vanished (system_in image.now) to) × (result ≤ 8) }
{
    let crashed = |p| u64::from(variables_at(image, p).crashed);
    members_of(to).map(crashed).sum()
}

// How many messages are lost if the plan of the actor is carried out.
#[tactic(auto, using(crate::proofs::Counting::taken_vanished), unfolding(events::specs::Counts::lost_at, view::specs::Logic::one, view::specs::Logic::pick))]
fn lost(image: &[u8], c: Scope, a: Plan) -> u64
    ensures { result ≡ lost_at (taken_off (system_in image.now) c) c.actor.0 (planned a) }
{
    let gone = vanished(image, a.addressees);
    if a.stops {
        let own = u64::from(has(a.addressees, c.actor));
        gone + waiting_towards(image, c) + own
    } else {
        gone
    }
}

#[tactic(auto, unfolding(events::specs::Counts::is_commit))]
fn is_commit(m: Message) -> bool
    ensures { result ≡ is_commit m }
{
    matches!(m, Message::Commit(..))
}

// What a plan counts, from PropOut before it, if so many messages are lost.
#[tactic(auto, unfolding(view::specs::Logic::one, view::specs::Logic::pick, tallies::specs::Tally::no_tally))]
fn plan_counts(c: Scope, a: Plan, before: GroupIndex, lost: u64) -> Tally
    ensures { result ≡ plan_counts c (planned a) before.0 lost }
{
    let after = a.change.variables.propout;
    Tally {
        sent: u64::from(count(a.addressees)),
        taken: u64::from(c.takes),
        lost,
        proposals: u64::from(before < after),
        committed: u64::from(is_commit(a.message) & (a.addressees != 0)),
        ..Tally::default()
    }
}

// What the acting process plans if it is not cut. A match, and not `plan_from`: to read what the action does
// not ask for takes a settling run a tenth more.
#[tactic(auto, unfolding(step::specs::Step::plan_of, plan::specs::Scope::scope_of))]
fn plan_of(image: &[u8], o: Action) -> Result<Plan, Refusal>
    ensures { planned_of (variables_at (system_in image.now) (scope_of o).actor.0) result ≡ plan_of (system_in image.now) o }
{
    match o {
        Action::Report(p, view) => {
            let x = variables_at(image, p);
            plans::report_plan(size(image), p, view, x, trust_at(image, p))
        }
        Action::Receive(q, p) => {
            plans::receive_plan(q, p, variables_at(image, p), front_at(image, q, p))
        }
        Action::Respond(p, q) => {
            plans::respond_plan(q, variables_at(image, p), pending_at(image, p, q))
        }
        Action::Crash(p) => Ok(plans::crash_plan(variables_at(image, p))),
    }
}

// What a step counts if it is done: asked before it is. A step whose plan is refused is not done.
#[tactic(auto, using(plan::proofs::Cuts::cut_refused, plan::proofs::Cuts::planned_cut, step::proofs::TakenOff::taken_variables), unfolding(events::specs::Counts::plan_tally))]
fn counts_if_done(image: &[u8], o: Step) -> Result<Tally, Refusal>
    ensures { Counts (system_in image.now) o result }
{
    let c = scope_of(o.action);
    let a = cut_by(o.cut, plan_of(image, o.action)?)?;
    let before = variables_at(image, c.actor).propout;
    Ok(plan_counts(c, a, before, lost(image, c, a)))
}

// The step as `attempt` does it, and what it counts: internal, as that is.
pub fn attempt_tallied(image: &mut [u8], o: Step) -> Result<Tally, Refusal>
    ensures step { Attempts o image.old (answer_number result) image.new }
    ensures tally { counted result ≡ step_tally (system_in image.old) o }
{
    let counts = counts_if_done(image, o);
    attempt(image, o).and(counts)
}
