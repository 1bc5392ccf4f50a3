// The plan of a step, by value: the definitions' own form of what an alternative does, for whoever asks
// what a step would do, or does it elsewhere than on an image. The engine makes the same choices and does them at once: with a plan between, a list of steps takes
// twice the instructions (docs/DECISIONS.md). What goes to nobody is the blank message, as in the definitions.
ghost use Rattle.std.specs.Prelude.{ℕ, ◌≡◌, Ok};
ghost use Rattle.view.specs.View.{minus, everyone};
ghost use Rattle.plan.specs.Plan.{assigning, recording, entering, sending, quietly, doubting, report_plan, receive_plan, respond_plan, crash_plan, plan_from};
ghost use Rattle.plan.specs.Choice.{reported_plan, report_fits};
ghost use Rattle.plan.specs.Cut.{cut_by};
ghost use Rattle.plan.specs.Scope.{scope_of};
ghost use Rattle.plan.specs.ByValue.{planned, planned_of};

use crate::{
    Action, Change, Cut, Plan, ReceiveChoice, ReportChoice, Scope, after, proposing, reach_of,
    receive_choice, report_choice, reproposing, respond_choice, with_acks, with_next, with_view,
};
use channel::Message;
use system::refusal::Refusal;
use system::{Proposal, Variables};
use view::{GroupIndex, ProcessId, everyone, minus, with};

// Whom an action names. A match, as in `attempt` of the engine.
#[tactic(auto, unfolding(crate::specs::Scope::scope_of))]
pub fn scope_of(o: Action) -> Scope
    ensures { result ≡ scope_of o }
{
    match o {
        Action::Report(p, _) | Action::Crash(p) => Scope::facing(p, p),
        Action::Receive(q, p) => Scope::taking(q, p),
        Action::Respond(p, q) => Scope::facing(p, q),
    }
}

// The variables change.
fn assigning(x: Variables) -> Change
    ensures { result ≡ assigning x }
{
    Change {
        variables: x,
        proposer: ProcessId(0),
        pending: None,
        index: GroupIndex(0),
        entry: 0,
    }
}

// The variables change, and what is recorded from process q.
fn recording(x: Variables, q: ProcessId, pending: Option<Proposal>) -> Change
    ensures { result ≡ recording x q pending }
{
    Change {
        proposer: q,
        pending,
        ..assigning(x)
    }
}

// The history changes at an index.
fn entering(x: Variables, i: GroupIndex, view: u8) -> Change
    ensures { result ≡ entering x i.0 view }
{
    Change {
        index: i,
        entry: view,
        ..assigning(x)
    }
}

// The process changes so; m goes to each process of the view.
fn sending(change: Change, to: u8, m: Message) -> Plan
    ensures { planned result ≡ sending change to m }
{
    Plan {
        change,
        stops: false,
        addressees: to,
        message: m,
        suspects: 0,
    }
}

// The process changes so, and nothing is sent.
fn quietly(change: Change) -> Plan
    ensures { planned result ≡ quietly change }
{
    sending(change, 0, Message::Propose(0, GroupIndex(0)))
}

// The plan of a report that is permitted, but for whom the process suspects.
#[tactic(auto, unfolding(crate::specs::Choice::reported_plan, view::specs::Logic::pick))]
fn reported(view: u8, x: Variables, choice: ReportChoice) -> Plan
    requires { report_fits x choice }
    ensures { (n : ℕ) → doubting (minus (everyone n) view) (planned result) ≡ reported_plan n view x (Ok choice) }
{
    match choice {
        ReportChoice::Adopt => quietly(assigning(with_view(x, view))),
        ReportChoice::ProposeAfter => {
            let i = after(x.propout);
            sending(
                assigning(proposing(x, view, i)),
                view,
                Message::Propose(view, i),
            )
        }
    }
}

// The plan of a report: the process suspects those whom its view lacks.
#[tactic(auto, unfolding(crate::specs::Choice::reported_plan))]
pub fn report_plan(n: u8, p: ProcessId, view: u8, x: Variables, trust: u8) -> Result<Plan, Refusal>
    ensures { planned_of x result ≡ report_plan n p.0 view x trust }
{
    let choice = report_choice(n, p, view, x, trust)?;
    Ok(Plan {
        suspects: minus(everyone(n), view),
        ..reported(view, x, choice)
    })
}

// The plan of a process that takes a message, if one waits.
#[tactic(auto, unfolding(crate::specs::Choice::received_plan))]
pub fn receive_plan(
    q: ProcessId,
    p: ProcessId,
    x: Variables,
    front: Option<Message>,
) -> Result<Plan, Refusal>
    ensures { planned_of x result ≡ receive_plan q p.0 x front }
{
    Ok(match receive_choice(q, p, x, front)? {
        ReceiveChoice::Record(view, index) => {
            quietly(recording(x, q, Some(Proposal { view, index })))
        }
        ReceiveChoice::Skip => quietly(assigning(x)),
        ReceiveChoice::Mark(acks) => quietly(assigning(with_acks(x, acks))),
        ReceiveChoice::CommitAll => {
            let view = x.proposal;
            let i = x.propout;
            sending(assigning(with_acks(x, 0)), view, Message::Commit(view, i))
        }
        ReceiveChoice::ProposeAgain(i) => {
            let view = x.view;
            sending(
                assigning(reproposing(x, i)),
                view,
                Message::Propose(view, i),
            )
        }
        ReceiveChoice::Enter(view, i) => quietly(entering(x, i, view)),
    })
}

// The plan of an answer to process q.
#[tactic(auto, unfolding(crate::specs::Choice::responded_plan))]
pub fn respond_plan(q: ProcessId, x: Variables, pending: Option<Proposal>) -> Result<Plan, Refusal>
    ensures { planned_of x result ≡ respond_plan q x pending }
{
    let reply = respond_choice(x, pending)?;
    Ok(sending(
        recording(with_next(x, reply.next), q, None),
        with(0, q),
        reply.message,
    ))
}

// A stop: nothing changes but that the process stops, and nothing is sent.
pub fn crash_plan(x: Variables) -> Plan
    ensures { planned result ≡ crash_plan x }
{
    Plan {
        stops: true,
        ..quietly(assigning(x))
    }
}

// The plan of an action, not cut, from what it is told of: how many processes there are, the acting
// one's variables, whom that may trust again, the oldest message from the partner, and what it has
// recorded from it.
pub fn plan_from(
    n: u8,
    o: Action,
    x: Variables,
    trust: u8,
    front: Option<Message>,
    pending: Option<Proposal>,
) -> Result<Plan, Refusal>
    ensures { planned_of x result ≡ plan_from n o x trust front pending }
{
    match o {
        Action::Report(p, view) => report_plan(n, p, view, x, trust),
        Action::Receive(q, p) => receive_plan(q, p, x, front),
        Action::Respond(_, q) => respond_plan(q, x, pending),
        Action::Crash(_) => Ok(crash_plan(x)),
    }
}

// The plan of a step, whose action has this plan: whole, or cut after its first messages.
#[tactic(auto, unfolding(crate::specs::Cut::cut_by, crate::specs::Cut::reach_of, view::specs::Logic::pick))]
pub fn cut_by(cut: Cut, a: Plan) -> Result<Plan, Refusal>
    ensures { planned_of a.change.variables result ≡ cut_by cut (planned a) }
{
    let reach = reach_of(cut, a.addressees)?;
    Ok(Plan {
        addressees: reach.addressees,
        stops: a.stops | reach.stops,
        ..a
    })
}
