// The one place where a step is done: on the image that the caller lends.
#![tactic(auto)]

ghost use Rattle.system.specs.Refusal.{answer_number};
ghost use Rattle.plan.specs.declared.Action.{Action};
ghost use Rattle.step.specs.Step.{stepped};
ghost use Rattle.image.specs.Image.{system_in};
ghost use Rattle.alternatives.specs.Gives.{Gives};
ghost use Rattle.engine.specs.Engine.{Attempts};

use alternatives::{
    adopt_view, enter_view, mark_acks, propose_view, record_proposal, reply, send_taken,
    skip_message,
};
use channel::Message;
use effects::{crash, guard};
use image::{front_at, pending_at, size, trust_at, variables_at};
use plan::{
    Action, Cut, ReceiveChoice, Reply, ReportChoice, Step, after, receive_choice, report_choice,
    reproposing, require_whole, respond_choice, with_acks,
};
use system::refusal::Refusal;
use view::ProcessId;

// The four functions for a step take the system to be sound, as `attempt` does: internal, as that is.
// Process p is told its view.
pub fn do_report(image: &mut [u8], p: ProcessId, view: u8, cut: Cut) -> Result<(), Refusal>
    ensures { Attempts (record { action = Action.Report p view; cut = cut }) image.old (answer_number result) image.new }
{
    guard(image, p, p)?;
    let n = size(image);
    let x = variables_at(image, p);
    match report_choice(n, p, view, x, trust_at(image, p))? {
        ReportChoice::Adopt => adopt_view(image, p, view, cut),
        ReportChoice::ProposeAfter => propose_view(image, p, view, after(x.propout), cut),
    }
}

// Process p takes the oldest message from process q.
pub fn do_receive(image: &mut [u8], q: ProcessId, p: ProcessId, cut: Cut) -> Result<(), Refusal>
    ensures { Attempts (record { action = Action.Receive q p; cut = cut }) image.old (answer_number result) image.new }
{
    guard(image, p, q)?;
    let x = variables_at(image, p);
    match receive_choice(q, p, x, front_at(image, q, p))? {
        ReceiveChoice::Record(view, i) => record_proposal(image, q, p, cut, view, i),
        ReceiveChoice::Skip => skip_message(image, q, p, cut),
        ReceiveChoice::Mark(acks) => mark_acks(image, q, p, cut, acks),
        ReceiveChoice::CommitAll => {
            let view = x.proposal;
            let commit = Message::Commit(view, x.propout);
            send_taken(image, q, p, cut, with_acks(x, 0), view, commit)
        }
        ReceiveChoice::ProposeAgain(i) => {
            let view = x.view;
            let propose = Message::Propose(view, i);
            send_taken(image, q, p, cut, reproposing(x, i), view, propose)
        }
        ReceiveChoice::Enter(view, i) => enter_view(image, q, p, cut, view, i),
    }
}

// Process p answers what it has recorded from process q.
pub fn do_respond(image: &mut [u8], p: ProcessId, q: ProcessId, cut: Cut) -> Result<(), Refusal>
    ensures { Attempts (record { action = Action.Respond p q; cut = cut }) image.old (answer_number result) image.new }
{
    guard(image, p, q)?;
    let x = variables_at(image, p);
    let Reply { next, message } = respond_choice(x, pending_at(image, p, q))?;
    reply(image, p, q, cut, next, message)
}

// Process p stops for good.
#[tactic(auto, using(crate::proofs::Chosen::crash_refused, crate::proofs::Chosen::crashed))]
pub fn do_crash(image: &mut [u8], p: ProcessId, cut: Cut) -> Result<(), Refusal>
    ensures { Attempts (record { action = Action.Crash p; cut = cut }) image.old (answer_number result) image.new }
{
    guard(image, p, p)?;
    require_whole(cut)?;
    crash(image, p);
    Ok(())
}

// ---- any step
// The step, on an image whose system is taken to be sound: internal to runs that know it to be so. A match, and
// no closure: an action is data, which sheets are read to, and there are four.
#[tactic(auto, using(crate::proofs::Given::of_action))]
pub fn attempt(image: &mut [u8], o: Step) -> Result<(), Refusal>
    ensures { Attempts o image.old (answer_number result) image.new }
{
    let cut = o.cut;
    match o.action {
        Action::Report(p, view) => do_report(image, p, view, cut),
        Action::Receive(q, p) => do_receive(image, q, p, cut),
        Action::Respond(p, q) => do_respond(image, p, q, cut),
        Action::Crash(p) => do_crash(image, p, cut),
    }
}

// One step of any kind.
#[tactic(auto, unfolding(step::specs::Step::stepped, view::specs::Logic::pick))]
pub fn perform(image: &mut [u8], o: Step) -> Result<(), Refusal>
    ensures { Gives (stepped (system_in image.old) o) image.old (answer_number result) image.new }
{
    if integrity::sound(image) {
        attempt(image, o)
    } else {
        Err(Refusal::Unsound)
    }
}
