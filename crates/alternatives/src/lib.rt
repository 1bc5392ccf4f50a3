// What is done once an alternative of Figure 3 is chosen, on the image that the caller lends: a function for
// each, but one for the two takes that send. The cut, and the room for what is sent, may still refuse it.
// Internal to the engine: nothing is tested that the engine has tested before. The takes that send nothing begin alike, by two
// calls: a third function for the two would want a promise as long as theirs.
#![tactic(auto)]

ghost use Rattle.std.specs.Prelude.{◌≡◌, None, Some};
ghost use Rattle.view.specs.View.{with, minus, everyone};
ghost use Rattle.channel.specs.declared.Message.{Message};
ghost use Rattle.system.specs.Process.{proposal_at};
ghost use Rattle.system.specs.Refusal.{answer_number};
ghost use Rattle.system.specs.System.{variables_at};
ghost use Rattle.plan.specs.Fields.{with_view, with_next, with_acks, proposing};
ghost use Rattle.plan.specs.Plan.{assigning, recording, entering, sending, quietly, doubting};
ghost use Rattle.plan.specs.Cut.{reach_of};
ghost use Rattle.plan.specs.Scope.{taking, facing};
ghost use Rattle.step.specs.Step.{taken_off, doubted};
ghost use Rattle.image.specs.Image.{system_in, Becomes};
ghost use Rattle.alternatives.specs.Gives.{Gives, carried, with_room};

use channel::Message;
use effects::{crash_if, doubt, room, send_if_named, send_out, takes_if_named};
use image::{pop, put_entry, put_pending, put_variables, size, variables_at};
use plan::{
    Cut, Reach, Scope, proposing, reach_of, require_room, require_whole, with_acks, with_next,
    with_view,
};
use system::refusal::Refusal;
use system::{Proposal, Variables};
use view::{GroupIndex, ProcessId, everyone, minus, with};

// The reach of a message to these processes, if they have room for it. Inlined, as `send_out` is: a step that
// sends takes a tenth less.
#[tactic(auto, unfolding(crate::specs::Gives::with_room, view::specs::Logic::pick))]
#[inline(always)]
fn reach_with_room(image: &[u8], c: Scope, cut: Cut, to: u8) -> Result<Reach, Refusal>
    ensures { result ≡ with_room (taken_off (system_in image.now) c) c.actor.0 (reach_of cut to) }
{
    let reach = reach_of(cut, to)?;
    require_room(room(image, c, reach.addressees))?;
    Ok(reach)
}

// ---- a report
// Process p is told a view: it comes to suspect whoever is not in it, or goes on to.
fn doubt_others(image: &mut [u8], p: ProcessId, view: u8)
    ensures { Becomes (doubted (system_in image.old) p.0 (minus (everyone (system_in image.old).n) view)) image.old image.new }
{
    doubt(image, p, minus(everyone(size(image)), view));
}

// Process p only takes the view over.
#[tactic(auto, using(crate::proofs::Carrying::not_quiet, crate::proofs::Alternatives::adopt_done))]
pub fn adopt_view(image: &mut [u8], p: ProcessId, view: u8, cut: Cut) -> Result<(), Refusal>
    ensures { Gives (carried (system_in image.old) (facing p p) cut (doubting (minus (everyone (system_in image.old).n) view) (quietly (assigning (with_view (variables_at (system_in image.old) p.0) view))))) image.old (answer_number result) image.new }
{
    require_whole(cut)?;
    doubt_others(image, p, view);
    put_variables(image, p, with_view(variables_at(image, p), view));
    Ok(())
}

// Process p proposes the view at index i.
#[tactic(auto, using(crate::proofs::Carrying::not_sent, crate::proofs::Alternatives::propose_done))]
pub fn propose_view(
    image: &mut [u8],
    p: ProcessId,
    view: u8,
    i: GroupIndex,
    cut: Cut,
) -> Result<(), Refusal>
    ensures { Gives (carried (system_in image.old) (facing p p) cut (doubting (minus (everyone (system_in image.old).n) view) (sending (assigning (proposing (variables_at (system_in image.old) p.0) view i.0)) view (Message.Propose view i)))) image.old (answer_number result) image.new }
{
    let reach = reach_with_room(image, Scope::facing(p, p), cut, view)?;
    doubt_others(image, p, view);
    put_variables(image, p, proposing(variables_at(image, p), view, i));
    send_out(image, p, reach, Message::Propose(view, i));
    Ok(())
}

// ---- a take, at process p, of a message from process q
// The proposal is recorded.
#[tactic(auto, using(crate::proofs::Carrying::not_quiet, crate::proofs::Alternatives::record_done))]
pub fn record_proposal(
    image: &mut [u8],
    q: ProcessId,
    p: ProcessId,
    cut: Cut,
    view: u8,
    i: GroupIndex,
) -> Result<(), Refusal>
    ensures { Gives (carried (system_in image.old) (taking q p) cut (quietly (recording (variables_at (system_in image.old) p.0) q (Some (proposal_at view i))))) image.old (answer_number result) image.new }
{
    require_whole(cut)?;
    pop(image, q, p);
    put_pending(image, p, q, Some(Proposal { view, index: i }));
    Ok(())
}

// Nothing else changes.
#[tactic(auto, using(crate::proofs::Carrying::not_quiet, crate::proofs::Alternatives::skip_done))]
pub fn skip_message(image: &mut [u8], q: ProcessId, p: ProcessId, cut: Cut) -> Result<(), Refusal>
    ensures { Gives (carried (system_in image.old) (taking q p) cut (quietly (assigning (variables_at (system_in image.old) p.0)))) image.old (answer_number result) image.new }
{
    require_whole(cut)?;
    pop(image, q, p);
    Ok(())
}

// These have acknowledged.
#[tactic(auto, using(crate::proofs::Carrying::not_quiet, crate::proofs::Alternatives::mark_done))]
pub fn mark_acks(
    image: &mut [u8],
    q: ProcessId,
    p: ProcessId,
    cut: Cut,
    acks: u8,
) -> Result<(), Refusal>
    ensures { Gives (carried (system_in image.old) (taking q p) cut (quietly (assigning (with_acks (variables_at (system_in image.old) p.0) acks)))) image.old (answer_number result) image.new }
{
    require_whole(cut)?;
    pop(image, q, p);
    put_variables(image, p, with_acks(variables_at(image, p), acks));
    Ok(())
}

// The view is entered at index i.
#[tactic(auto, using(crate::proofs::Carrying::not_quiet, crate::proofs::Alternatives::enter_done))]
pub fn enter_view(
    image: &mut [u8],
    q: ProcessId,
    p: ProcessId,
    cut: Cut,
    view: u8,
    i: GroupIndex,
) -> Result<(), Refusal>
    ensures { Gives (carried (system_in image.old) (taking q p) cut (quietly (entering (variables_at (system_in image.old) p.0) i.0 view))) image.old (answer_number result) image.new }
{
    require_whole(cut)?;
    pop(image, q, p);
    put_entry(image, p, i, view);
    Ok(())
}

// The variables become y, and a message goes to these.
#[tactic(auto, using(crate::proofs::Carrying::not_sent, crate::proofs::Alternatives::taken_sent))]
pub fn send_taken(
    image: &mut [u8],
    q: ProcessId,
    p: ProcessId,
    cut: Cut,
    y: Variables,
    to: u8,
    m: Message,
) -> Result<(), Refusal>
    ensures { Gives (carried (system_in image.old) (taking q p) cut (sending (assigning y) to m)) image.old (answer_number result) image.new }
{
    let reach = reach_with_room(image, Scope::taking(q, p), cut, to)?;
    pop(image, q, p);
    put_variables(image, p, y);
    send_out(image, p, reach, m);
    Ok(())
}

// ---- an answer of process p to process q
// The reach of an answer, if its one addressee has room for it.
#[tactic(auto, unfolding(crate::specs::Gives::with_room))]
fn reply_reach(image: &[u8], p: ProcessId, q: ProcessId, cut: Cut) -> Result<Reach, Refusal>
    ensures { result ≡ with_room (taken_off (system_in image.now) (facing p q)) p.0 (reach_of cut (with 0 q.0)) }
{
    let c = Scope::facing(p, q);
    let reach = reach_of(cut, with(0, q))?;
    require_room(takes_if_named(image, c, reach.addressees, q))?;
    Ok(reach)
}

// Next becomes this, the record is cleared, and the message goes to the proposer.
#[tactic(auto, using(crate::proofs::Carrying::not_sent, crate::proofs::Answering::answer_done))]
pub fn reply(
    image: &mut [u8],
    p: ProcessId,
    q: ProcessId,
    cut: Cut,
    next: GroupIndex,
    m: Message,
) -> Result<(), Refusal>
    ensures { Gives (carried (system_in image.old) (facing p q) cut (sending (recording (with_next (variables_at (system_in image.old) p.0) next.0) q None) (with 0 q.0) m)) image.old (answer_number result) image.new }
{
    let reach = reply_reach(image, p, q, cut)?;
    put_variables(image, p, with_next(variables_at(image, p), next));
    put_pending(image, p, q, None);
    send_if_named(image, p, reach.addressees, m, q);
    crash_if(image, reach.stops, p);
    Ok(())
}
