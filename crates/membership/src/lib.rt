// The typed library: a step on a system by value. Each is the engine's, between encoding and decoding.
#![tactic(auto)]

ghost use Rattle.std.specs.Prelude.{◌≡◌};
ghost use Rattle.system.specs.Outcome.{outcome_of};
ghost use Rattle.plan.specs.declared.Action.{Action};
ghost use Rattle.plan.specs.Cut.{whole};
ghost use Rattle.step.specs.Step.{stepped};
ghost use Rattle.settling.specs.Settle.{settled, settling_budget};
ghost use Rattle.settle.specs.Settles.{settled_of};

use image::blank_image;
use plan::{Action, Step};
use settle::SettledSystem;
use system::{Refused, System};
use view::ProcessId;

// One step of any kind, whole or cut.
pub fn perform(s: System, o: Step) -> Result<System, Refused>
    ensures { outcome_of result ≡ stepped s o }
{
    let mut image = blank_image();
    codec::encode(s, &mut image);
    match engine::perform(&mut image, o) {
        Ok(()) => Ok(codec::decode(&image)),
        Err(refusal) => Err(Refused { refusal, system: s }),
    }
}

// Process p is told its view.
pub fn report(s: System, p: ProcessId, view: u8) -> Result<System, Refused>
    ensures { outcome_of result ≡ stepped s (whole (Action.Report p view)) }
{
    perform(s, Step::whole(Action::Report(p, view)))
}

// Process p takes the oldest message from process q.
pub fn receive(s: System, q: ProcessId, p: ProcessId) -> Result<System, Refused>
    ensures { outcome_of result ≡ stepped s (whole (Action.Receive q p)) }
{
    perform(s, Step::whole(Action::Receive(q, p)))
}

// Process p answers the proposal that it recorded from process q.
pub fn respond(s: System, p: ProcessId, q: ProcessId) -> Result<System, Refused>
    ensures { outcome_of result ≡ stepped s (whole (Action.Respond p q)) }
{
    perform(s, Step::whole(Action::Respond(p, q)))
}

// Process p stops for good.
pub fn crash(s: System, p: ProcessId) -> Result<System, Refused>
    ensures { outcome_of result ≡ stepped s (whole (Action.Crash p)) }
{
    perform(s, Step::whole(Action::Crash(p)))
}

// The settling run: takes and answers, until a whole round of them does nothing.
pub fn settle(s: System) -> Result<SettledSystem, Refused>
    ensures { settled_of result ≡ settled settling_budget s }
{
    let mut image = blank_image();
    codec::encode(s, &mut image);
    match settle::settle(&mut image) {
        Ok(run) => Ok(SettledSystem {
            steps: run.steps,
            ending: run.ending,
            system: codec::decode(&image),
        }),
        Err(refusal) => Err(Refused { refusal, system: s }),
    }
}
