// A list of steps, in bytes, on one image.
#![tactic(auto)]

ghost use Rattle.std.specs.Prelude.{◌≡◌, ◌≤◌, true, length};
ghost use Rattle.system.specs.Refusal.{answer_number};
ghost use Rattle.sound.specs.Sound.{sound_system};
ghost use Rattle.plan.specs.declared.Action.{Action};
ghost use Rattle.image.specs.Image.{system_in};
ghost use Rattle.alternatives.specs.Gives.{Gives};
ghost use Rattle.list.specs.List.{cut_of, order_of, order_at, obeyed, Performs};

use engine::{do_crash, do_receive, do_report, do_respond};
use plan::Cut;
use system::refusal::{Refusal, number_of};
use view::ProcessId;

// The fourth byte of an order whose step is whole: a number, since a list is bytes of a caller in C.
pub const WHOLE: u8 = 255;

// What the fourth byte says: any other is the number of messages after which the step is cut.
#[tactic(auto, unfolding(crate::specs::List::cut_of, view::specs::Logic::pick))]
fn cut_of(byte: u8) -> Cut
    ensures { result ≡ cut_of byte }
{
    if byte == WHOLE {
        Cut::Whole
    } else {
        Cut::After(byte)
    }
}

// The step of a kind, 0 to 3: the engine's function for it is called at once, so that no step stands in memory.
#[inline(always)]
fn obey_kind(image: &mut [u8], kind: u8, x: u8, y: u8, cut: Cut) -> Result<(), Refusal>
    requires known { kind ≤ 3 }
    requires sound { sound_system (system_in image.old) ≡ true }
    ensures gives { Gives (obeyed (system_in image.old) (order_of kind x y cut)) image.old (answer_number result) image.new }
    ensures stays { sound_system (system_in image.new) ≡ true }
{
    match kind {
        0 => do_report(image, ProcessId(x), y, cut),
        1 => do_receive(image, ProcessId(x), ProcessId(y), cut),
        2 => do_respond(image, ProcessId(x), ProcessId(y), cut),
        _ => do_crash(image, ProcessId(x), cut),
    }
}

// What an order does to an image whose system is sound, or is not.
#[tactic(auto, using(crate::proofs::Lists::broken_off, crate::proofs::Lists::no_kind, crate::proofs::Lists::not_obeyed, crate::proofs::Lists::says))]
fn obey(image: &mut [u8], good: bool, order: &[u8]) -> Result<(), Refusal>
    requires short { length order.now ≤ 4 }
    requires tested { good ≡ sound_system (system_in image.old) }
    ensures gives { Gives (obeyed (system_in image.old) (order_at order.now 0)) image.old (answer_number result) image.new }
    ensures stays { good ≡ sound_system (system_in image.new) }
{
    // Bytes that break off inside a step are no step.
    let [kind, x, y, last] = order else {
        return Err(Refusal::BadLine);
    };
    if 3 < *kind {
        Err(Refusal::BadLine)
    } else if good {
        obey_kind(image, *kind, *x, *y, cut_of(*last))
    } else {
        Err(Refusal::Unsound)
    }
}

// A list of steps, four bytes each: kind 0 is a report (process, view), 1 a receive (from, at), 2 a
// response (process, to), 3 a crash (process, any byte); then WHOLE, or the number of messages after
// which the step is cut. Their numbers go into the lent slice: as many steps are done as it has
// places. The answer is how many that were.
pub fn perform_all(image: &mut [u8], list: &[u8], numbers: &mut [u8]) -> usize
    ensures { Performs list.now image.old numbers.old result image.new numbers.new }
{
    let good = integrity::sound(image);
    let total = numbers.len().min(list.len().div_ceil(4));
    let mut orders = list.chunks(4);
    // No `zip`: after one over `iter_mut` a proof knows nothing of what was written.
    for number in numbers.iter_mut() {
        let Some(order) = orders.next() else {
            break;
        };
        *number = number_of(obey(image, good, order));
    }
    total
}
