// The functions for programs in C and other languages: the engine's, with plain numbers. A
// process's number is wrapped at once; everything below takes it as a `ProcessId`. Crate capi_c
// exports each of them. Answers are numbers, and not Results, since C knows no others.
#![tactic(auto)]

ghost use Rattle.std.specs.Prelude.{◌≡◌};
ghost use Rattle.system.specs.Refusal.{answer_number};
ghost use Rattle.plan.specs.declared.Action.{Action};
ghost use Rattle.plan.specs.Cut.{whole, cut_after};
ghost use Rattle.step.specs.Step.{stepped};
ghost use Rattle.image.specs.Image.{system_in};
ghost use Rattle.alternatives.specs.Gives.{Gives};
ghost use Rattle.list.specs.List.{Performs};
ghost use Rattle.run.specs.Output.{output};
ghost use Rattle.settling.specs.Settle.{settled};
ghost use Rattle.capi.specs.Calls.{Freshens, Prints, ending_number, Tells};
ghost use Rattle.settling.specs.Settle.{settling_budget};

use engine::perform;
use fresh::put_fresh;
use image::IMAGE;
use list::perform_all;
use plan::{Action, Step};
use settling::Ending;
use system::refusal::{Refusal, number_of};
use view::{ProcessId, is_one_of};

// The image of the fresh system of n processes, or of none.
#[tactic(auto, using(crate::proofs::Started::started, crate::proofs::Started::stranger, crate::proofs::Started::no_image))]
fn freshen(image: &mut [u8], n: u8) -> Result<(), Refusal>
    ensures { Freshens n image.old (answer_number result) image.new }
{
    if image.len() != IMAGE {
        return Err(Refusal::Unsound);
    }
    if !is_one_of(8, ProcessId(n)) {
        put_fresh(image, 0);
        return Err(Refusal::Stranger);
    }
    put_fresh(image, n);
    Ok(())
}

// The image of the fresh system of n processes.
pub fn lobstercreel_fresh(image: &mut [u8], n: u8) -> u8
    ensures { Freshens n image.old result image.new }
{
    number_of(freshen(image, n))
}

fn step(image: &mut [u8], o: Step) -> u8
    ensures { Gives (stepped (system_in image.old) o) image.old result image.new }
{
    number_of(perform(image, o))
}

// Process p is told its view.
pub fn lobstercreel_report(image: &mut [u8], p: u8, view: u8) -> u8
    ensures { Gives (stepped (system_in image.old) (whole (Action.Report (record { 0 = p }) view))) image.old result image.new }
{
    step(image, Step::whole(Action::Report(ProcessId(p), view)))
}

// Process p takes the oldest message from process q.
pub fn lobstercreel_receive(image: &mut [u8], q: u8, p: u8) -> u8
    ensures { Gives (stepped (system_in image.old) (whole (Action.Receive (record { 0 = q }) (record { 0 = p })))) image.old result image.new }
{
    step(
        image,
        Step::whole(Action::Receive(ProcessId(q), ProcessId(p))),
    )
}

// Process p answers the proposal that it recorded from process q.
pub fn lobstercreel_respond(image: &mut [u8], p: u8, q: u8) -> u8
    ensures { Gives (stepped (system_in image.old) (whole (Action.Respond (record { 0 = p }) (record { 0 = q })))) image.old result image.new }
{
    step(
        image,
        Step::whole(Action::Respond(ProcessId(p), ProcessId(q))),
    )
}

// Process p stops for good.
pub fn lobstercreel_crash(image: &mut [u8], p: u8) -> u8
    ensures { Gives (stepped (system_in image.old) (whole (Action.Crash (record { 0 = p })))) image.old result image.new }
{
    step(image, Step::whole(Action::Crash(ProcessId(p))))
}

// Process p is told its view, and stops after k of its messages.
pub fn lobstercreel_report_cut(image: &mut [u8], p: u8, view: u8, k: u8) -> u8
    ensures { Gives (stepped (system_in image.old) (cut_after (Action.Report (record { 0 = p }) view) k)) image.old result image.new }
{
    step(
        image,
        Step::cut_after(Action::Report(ProcessId(p), view), k),
    )
}

// Process p takes the oldest message from process q, and stops after k of its messages.
pub fn lobstercreel_receive_cut(image: &mut [u8], q: u8, p: u8, k: u8) -> u8
    ensures { Gives (stepped (system_in image.old) (cut_after (Action.Receive (record { 0 = q }) (record { 0 = p })) k)) image.old result image.new }
{
    step(
        image,
        Step::cut_after(Action::Receive(ProcessId(q), ProcessId(p)), k),
    )
}

// Process p answers the proposal that it recorded from process q, and stops after k of its messages.
pub fn lobstercreel_respond_cut(image: &mut [u8], p: u8, q: u8, k: u8) -> u8
    ensures { Gives (stepped (system_in image.old) (cut_after (Action.Respond (record { 0 = p }) (record { 0 = q })) k)) image.old result image.new }
{
    step(
        image,
        Step::cut_after(Action::Respond(ProcessId(p), ProcessId(q)), k),
    )
}

// 0 for a system at rest, 1 for one held up, 2 where the budget was used up. No `From`: crate settling declares the
// type and knows nothing of C's numbers.
#[tactic(auto, unfolding(crate::specs::Calls::ending_number))]
fn ending_number(e: Ending) -> u16
    ensures { result ≡ ending_number e }
{
    match e {
        Ending::Rest => 0,
        Ending::Held => 1,
        Ending::Budget => 2,
    }
}

// A list of steps, four bytes each, and their numbers.
pub fn lobstercreel_steps(image: &mut [u8], list: &[u8], numbers: &mut [u8]) -> usize
    ensures { Performs list.now image.old numbers.old result image.new numbers.new }
{
    perform_all(image, list, numbers)
}

// The settling run: takes and answers, until a whole round does nothing. The steps done and how it
// ended go into the lent pair.
#[tactic(auto, using(crate::proofs::Told::run_told, crate::proofs::Told::refusal_told))]
pub fn lobstercreel_settle(image: &mut [u8], told: &mut [u16; 2]) -> u8
    ensures { Tells (settled settling_budget (system_in image.old)) image.old result image.new told.old told.new }
{
    match settle::settle(image) {
        Ok(run) => {
            told[0] = run.steps;
            told[1] = ending_number(run.ending);
            0
        }
        Err(refusal) => {
            told[0] = 0;
            told[1] = ending_number(Ending::Held);
            u8::from(refusal)
        }
    }
}

// A whole sheet, from its bytes to what is printed, as far as the buffer has room. The answer is how
// many bytes were written: where it is less than the buffer's length, nothing was cut off.
pub fn lobstercreel_run(sheet: &[u8], out: &mut [u8]) -> usize
    ensures { Prints (output sheet.now) out.old result out.new }
{
    run::run_sheet(sheet, out)
}
