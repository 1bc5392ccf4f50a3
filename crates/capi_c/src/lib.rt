// The static library for programs in C and other languages: each function of crate capi, exported
// with its name and its clauses. The header include/lobstercreel.h declares them for C. Twins of crate capi: no crate can stand on
// a static library, and the theorems of crate calls speak of capi's.
#![tactic(auto)]

ghost use Rattle.plan.specs.declared.Action.{Action};
ghost use Rattle.plan.specs.Cut.{whole, cut_after};
ghost use Rattle.step.specs.Step.{stepped};
ghost use Rattle.image.specs.Image.{system_in};
ghost use Rattle.alternatives.specs.Gives.{Gives};
ghost use Rattle.list.specs.List.{Performs};
ghost use Rattle.run.specs.Output.{output};
ghost use Rattle.settling.specs.Settle.{settled};
ghost use Rattle.capi.specs.Calls.{Freshens, Prints, Tells};
ghost use Rattle.settling.specs.Settle.{settling_budget};

// The image of the fresh system of n processes.
#[unsafe(no_mangle)]
pub extern "C" fn lobstercreel_fresh(image: &mut [u8], n: u8) -> u8
    ensures { Freshens n image.old result image.new }
{
    capi::lobstercreel_fresh(image, n)
}

// Process p is told its view.
#[unsafe(no_mangle)]
pub extern "C" fn lobstercreel_report(image: &mut [u8], p: u8, view: u8) -> u8
    ensures { Gives (stepped (system_in image.old) (whole (Action.Report (record { 0 = p }) view))) image.old result image.new }
{
    capi::lobstercreel_report(image, p, view)
}

// Process p takes the oldest message from process q.
#[unsafe(no_mangle)]
pub extern "C" fn lobstercreel_receive(image: &mut [u8], q: u8, p: u8) -> u8
    ensures { Gives (stepped (system_in image.old) (whole (Action.Receive (record { 0 = q }) (record { 0 = p })))) image.old result image.new }
{
    capi::lobstercreel_receive(image, q, p)
}

// Process p answers the proposal that it recorded from process q.
#[unsafe(no_mangle)]
pub extern "C" fn lobstercreel_respond(image: &mut [u8], p: u8, q: u8) -> u8
    ensures { Gives (stepped (system_in image.old) (whole (Action.Respond (record { 0 = p }) (record { 0 = q })))) image.old result image.new }
{
    capi::lobstercreel_respond(image, p, q)
}

// Process p stops for good.
#[unsafe(no_mangle)]
pub extern "C" fn lobstercreel_crash(image: &mut [u8], p: u8) -> u8
    ensures { Gives (stepped (system_in image.old) (whole (Action.Crash (record { 0 = p })))) image.old result image.new }
{
    capi::lobstercreel_crash(image, p)
}

// Process p is told its view, and stops after k of its messages.
#[unsafe(no_mangle)]
pub extern "C" fn lobstercreel_report_cut(image: &mut [u8], p: u8, view: u8, k: u8) -> u8
    ensures { Gives (stepped (system_in image.old) (cut_after (Action.Report (record { 0 = p }) view) k)) image.old result image.new }
{
    capi::lobstercreel_report_cut(image, p, view, k)
}

// Process p takes the oldest message from process q, and stops after k of its messages.
#[unsafe(no_mangle)]
pub extern "C" fn lobstercreel_receive_cut(image: &mut [u8], q: u8, p: u8, k: u8) -> u8
    ensures { Gives (stepped (system_in image.old) (cut_after (Action.Receive (record { 0 = q }) (record { 0 = p })) k)) image.old result image.new }
{
    capi::lobstercreel_receive_cut(image, q, p, k)
}

// Process p answers the proposal that it recorded from process q, and stops after k of its messages.
#[unsafe(no_mangle)]
pub extern "C" fn lobstercreel_respond_cut(image: &mut [u8], p: u8, q: u8, k: u8) -> u8
    ensures { Gives (stepped (system_in image.old) (cut_after (Action.Respond (record { 0 = p }) (record { 0 = q })) k)) image.old result image.new }
{
    capi::lobstercreel_respond_cut(image, p, q, k)
}

// A list of steps, four bytes each, and their numbers.
#[unsafe(no_mangle)]
pub extern "C" fn lobstercreel_steps(image: &mut [u8], list: &[u8], numbers: &mut [u8]) -> usize
    ensures { Performs list.now image.old numbers.old result image.new numbers.new }
{
    capi::lobstercreel_steps(image, list, numbers)
}

// The settling run: takes and answers, until a whole round does nothing. The steps done and how it
// ended go into the lent pair.
#[unsafe(no_mangle)]
pub extern "C" fn lobstercreel_settle(image: &mut [u8], told: &mut [u16; 2]) -> u8
    ensures { Tells (settled settling_budget (system_in image.old)) image.old result image.new told.old told.new }
{
    capi::lobstercreel_settle(image, told)
}

// A whole sheet, from its bytes to what is printed, as far as the buffer has room. The answer is how
// many bytes were written: where it is less than the buffer's length, nothing was cut off.
#[unsafe(no_mangle)]
pub extern "C" fn lobstercreel_run(sheet: &[u8], out: &mut [u8]) -> usize
    ensures { Prints (output sheet.now) out.old result out.new }
{
    capi::lobstercreel_run(sheet, out)
}
