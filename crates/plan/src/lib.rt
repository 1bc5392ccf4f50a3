// Figure 3, guarded command by guarded command: which alternative the acting process takes; how a step is
// cut, and refusals 12 and 7.
#![tactic(auto)]

ghost use Rattle.std.specs.Prelude.{ℕ, ◌+◌, ◌≡◌, true, false, eqb, ltb, IfOk};
ghost use Rattle.view.specs.Logic.{pick};
ghost use Rattle.view.specs.View.{with};
ghost use Rattle.system.specs.declared.refusal.Refusal.TheVariants.{ChannelFull};
ghost use Rattle.plan.specs.Fields.{with_view, with_next, with_acks, proposing, reproposing};
ghost use Rattle.plan.specs.Plan.{new_view_plan, report_plan, committing_plan, message_plan, receive_plan, respond_plan};
ghost use Rattle.plan.specs.Choice.{reported_plan, report_fits, received_plan, responded_plan};
ghost use Rattle.plan.specs.Cut.{whole, cut_after, reach_of, only_whole};

pub mod plans;

use channel::Message;
use system::refusal::Refusal;
use system::{Proposal, Variables};
use view::{GroupIndex, ProcessId, count, first_of, has, least, minus, subset, with, within};

// What a process does in one step.
#[derive(Clone, Copy)]
pub enum Action {
    // The process is told its view.
    Report(ProcessId, u8),
    // From the first process, at the second: the oldest message comes off the channel.
    Receive(ProcessId, ProcessId),
    // The first process answers the proposal that it recorded from the second.
    Respond(ProcessId, ProcessId),
    // The process stops for good.
    Crash(ProcessId),
}

// How much of a step is done. No Option of a number: its `None` would say neither that all is done nor that nothing is.
#[derive(Clone, Copy)]
pub enum Cut {
    // All of it.
    Whole,
    // The process stops after so many of its messages.
    After(u8),
}

// One step of any kind: what the process does, and whether it is cut.
#[derive(Clone, Copy)]
pub struct Step {
    pub action: Action,
    pub cut: Cut,
}

impl Step {
    // The action, not cut.
    pub fn whole(action: Action) -> Self
        ensures { result ≡ whole action }
    {
        Step {
            action,
            cut: Cut::Whole,
        }
    }

    // The action, cut after k of its messages.
    pub fn cut_after(action: Action, k: u8) -> Self
        ensures { result ≡ cut_after action k }
    {
        Step {
            action,
            cut: Cut::After(k),
        }
    }
}

// Whom an action names. The partner has a field of its own: refusal 2 asks of it where nothing is taken, too.
#[derive(Clone, Copy)]
pub struct Scope {
    // The process that acts.
    pub actor: ProcessId,
    // The other one that the action names; the same where it names one.
    pub partner: ProcessId,
    // It takes a message off the channel from the partner.
    pub takes: bool,
}

impl Scope {
    // An action of process p that takes no message and names process q.
    pub fn facing(p: ProcessId, q: ProcessId) -> Self
        ensures { result ≡ record { actor = p; partner = q; takes = false } }
    {
        Scope {
            actor: p,
            partner: q,
            takes: false,
        }
    }

    // A take, from process q at process p.
    pub fn taking(q: ProcessId, p: ProcessId) -> Self
        ensures { result ≡ record { actor = p; partner = q; takes = true } }
    {
        Scope {
            actor: p,
            partner: q,
            takes: true,
        }
    }
}

// What becomes of the acting process: its variables; what it has recorded from the proposer, where
// that is not 0; its history's entry at the index, where that is not 0. The definitions' own record, which the
// functions of plans.rt promise. No Options in it: what is put at number 0 changes nothing in any table, so that a case more says nothing more.
#[derive(Clone, Copy)]
pub struct Change {
    pub variables: Variables,
    pub proposer: ProcessId,
    pub pending: Option<Proposal>,
    pub index: GroupIndex,
    pub entry: u8,
}

// What a step does once it is permitted: the acting process changes so, sends the message to every
// process of the view, and then stops or not; it comes to suspect some processes, or goes on to. `stops` is no case of
// its own: a cut step sends and stops, and a stop only stops.
#[derive(Clone, Copy)]
pub struct Plan {
    pub change: Change,
    pub stops: bool,
    pub addressees: u8,
    pub message: Message,
    pub suspects: u8,
}

pub fn with_view(x: Variables, view: u8) -> Variables
    ensures { result ≡ with_view x view }
{
    Variables { view, ..x }
}

pub fn with_next(x: Variables, next: GroupIndex) -> Variables
    ensures { result ≡ with_next x next.0 }
{
    Variables { next, ..x }
}

pub fn with_acks(x: Variables, acks: u8) -> Variables
    ensures { result ≡ with_acks x acks }
{
    Variables { acks, ..x }
}

// The view becomes the local and the last proposed view, proposed at index i.
pub fn proposing(x: Variables, view: u8, i: GroupIndex) -> Variables
    ensures { result ≡ proposing x view i.0 }
{
    Variables {
        view,
        propout: i,
        proposal: view,
        acks: 0,
        ..x
    }
}

// The local view is proposed again, at index i.
pub fn reproposing(x: Variables, i: GroupIndex) -> Variables
    ensures { result ≡ reproposing x i.0 }
{
    Variables {
        propout: i,
        acks: 0,
        ..x
    }
}

// What becomes of a report that is permitted: the process only takes the view over; or it proposes the
// view at the index after PropOut, which is then below 32.
#[derive(Clone, Copy, PartialEq, Eq)]
pub enum ReportChoice {
    Adopt,
    ProposeAfter,
}

// What becomes of a message that is taken: the proposal is recorded; nothing else changes; these have
// acknowledged; all have, and the Commit goes out; the local view is proposed again at the index; the
// view is entered at the index.
#[derive(Clone, Copy, PartialEq, Eq)]
pub enum ReceiveChoice {
    Record(u8, GroupIndex),
    Skip,
    Mark(u8),
    CommitAll,
    ProposeAgain(GroupIndex),
    Enter(u8, GroupIndex),
}

// What becomes of an answer that is permitted: Next becomes this and the message goes to the proposer.
#[derive(Clone, Copy, PartialEq, Eq)]
pub struct Reply {
    pub next: GroupIndex,
    pub message: Message,
}

// The index after this one, in a history.
#[tactic(auto, unfolding(view::specs::Logic::pick))]
pub fn after(i: GroupIndex) -> GroupIndex
    ensures { result ≡ record { 0 = pick (ltb i.0 32) (i.0 + 1) i.0 } }
{
    if i.0 < 32 { GroupIndex(i.0 + 1) } else { i }
}

// Process p is told a view that names it and brings back only whom it may trust again.
#[tactic(auto, unfolding(crate::specs::Plan::new_view_plan, crate::specs::Choice::reported_plan, view::specs::Logic::pick))]
fn new_view(p: ProcessId, view: u8, x: Variables) -> Result<ReportChoice, Refusal>
    ensures plan { (n : ℕ) → reported_plan n view x result ≡ new_view_plan n p.0 view x }
    ensures fits { IfOk result (report_fits x) }
{
    if least(view) != p {
        Ok(ReportChoice::Adopt)
    } else if x.propout.0 < 32 {
        Ok(ReportChoice::ProposeAfter)
    } else {
        Err(Refusal::HistoryFull)
    }
}

// First guarded command: process p of n, which may trust some others again, is told a view.
#[tactic(auto, unfolding(crate::specs::Plan::report_plan, crate::specs::Choice::reported_plan, view::specs::Logic::pick))]
pub fn report_choice(
    n: u8,
    p: ProcessId,
    view: u8,
    x: Variables,
    trust: u8,
) -> Result<ReportChoice, Refusal>
    ensures plan { reported_plan n view x result ≡ report_plan n p.0 view x trust }
    ensures fits { IfOk result (report_fits x) }
{
    if !(within(n, view) & has(view, p)) {
        Err(Refusal::OddView)
    } else if !subset(minus(view, x.view), trust) {
        Err(Refusal::EarlyTrust)
    } else {
        new_view(p, view, x)
    }
}

// Those who have acknowledged, with process q, where its Acc is for PropOut.
#[tactic(auto, unfolding(view::specs::Logic::pick))]
fn marked(q: ProcessId, x: Variables, i: GroupIndex) -> u8
    ensures { result ≡ pick (eqb x.propout.0 i.0) (with x.acks q.0) x.acks }
{
    if x.propout == i {
        with(x.acks, q)
    } else {
        x.acks
    }
}

// After the mark: Commit, once all of the last proposed view have acknowledged.
#[tactic(auto, unfolding(crate::specs::Plan::committing_plan, crate::specs::Choice::received_plan, view::specs::Logic::pick))]
fn committing(x: Variables, acks: u8) -> ReceiveChoice
    ensures { (q : ProcessId) → received_plan q x (Ok result) ≡ committing_plan (with_acks x acks) }
{
    let view = x.proposal;
    if (view != 0) & subset(view, acks) {
        ReceiveChoice::CommitAll
    } else {
        ReceiveChoice::Mark(acks)
    }
}

// Process p takes the message m of process q.
#[tactic(auto, unfolding(crate::specs::Plan::message_plan, crate::specs::Choice::received_plan, view::specs::Logic::pick))]
fn message_choice(
    q: ProcessId,
    p: ProcessId,
    x: Variables,
    m: Message,
) -> Result<ReceiveChoice, Refusal>
    ensures { received_plan q x result ≡ message_plan q p.0 x m }
{
    match m {
        Message::Propose(v, i) => Ok(ReceiveChoice::Record(v, i)),
        Message::Retry(old, new) => {
            if (x.propout != old) | (least(x.view) != p) {
                Ok(ReceiveChoice::Skip)
            } else if new.0 <= 32 {
                Ok(ReceiveChoice::ProposeAgain(new))
            } else {
                Err(Refusal::HistoryFull)
            }
        }
        Message::Acc(i) => Ok(committing(x, marked(q, x, i))),
        Message::Commit(v, i) => Ok(ReceiveChoice::Enter(v, i)),
    }
}

// Second guarded command: process p takes the oldest message of process q, if one waits.
#[tactic(auto, unfolding(crate::specs::Plan::receive_plan, crate::specs::Choice::received_plan))]
pub fn receive_choice(
    q: ProcessId,
    p: ProcessId,
    x: Variables,
    front: Option<Message>,
) -> Result<ReceiveChoice, Refusal>
    ensures { received_plan q x result ≡ receive_plan q p.0 x front }
{
    match front {
        None => Err(Refusal::NothingThere),
        Some(m) => message_choice(q, p, x, m),
    }
}

// Third guarded command: what is recorded from a process is answered.
#[tactic(auto, unfolding(crate::specs::Plan::respond_plan, crate::specs::Choice::responded_plan, view::specs::Logic::pick))]
pub fn respond_choice(x: Variables, pending: Option<Proposal>) -> Result<Reply, Refusal>
    ensures { (q : ProcessId) → responded_plan q x result ≡ respond_plan q x pending }
{
    let Some(Proposal { view, index }) = pending else {
        return Err(Refusal::NoRecord);
    };
    let next = x.next;
    if view != x.view {
        Err(Refusal::OtherView)
    } else if index < next {
        Ok(Reply {
            next,
            message: Message::Retry(index, next),
        })
    } else if index.0 <= 32 {
        Ok(Reply {
            next: GroupIndex(index.0 + 1),
            message: Message::Acc(index),
        })
    } else {
        // No sound system has such a record.
        Err(Refusal::Unsound)
    }
}

// To whom the message of a step goes: to these, and then the process stops or not.
#[derive(Clone, Copy)]
pub struct Reach {
    pub addressees: u8,
    pub stops: bool,
}

// The reach of a message to these processes.
#[tactic(auto, unfolding(crate::specs::Cut::reach_of, view::specs::Logic::pick))]
pub fn reach_of(cut: Cut, to: u8) -> Result<Reach, Refusal>
    ensures { result ≡ reach_of cut to }
{
    match cut {
        Cut::Whole => Ok(Reach {
            addressees: to,
            stops: false,
        }),
        Cut::After(k) => {
            if k < count(to) {
                Ok(Reach {
                    addressees: first_of(k, to),
                    stops: true,
                })
            } else {
                Err(Refusal::CutTooLate)
            }
        }
    }
}

// Refusal 7, unless the addressees of a message have room.
#[tactic(auto, unfolding(view::specs::Logic::pick))]
pub fn require_room(room: bool) -> Result<(), Refusal>
    ensures { result ≡ pick room (Ok tt) (Err ChannelFull) }
{
    if room {
        Ok(())
    } else {
        Err(Refusal::ChannelFull)
    }
}

// A step that sends nothing wants no room, and any cut of it is too late: refusal 12.
#[tactic(auto, using(crate::proofs::Cuts::never_cut), unfolding(crate::specs::Cut::only_whole, crate::specs::Cut::reach_of))]
pub fn require_whole(cut: Cut) -> Result<(), Refusal>
    ensures { result ≡ only_whole cut }
{
    match cut {
        Cut::Whole => Ok(()),
        Cut::After(_) => Err(Refusal::CutTooLate),
    }
}
