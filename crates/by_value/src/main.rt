// Steps by value, as a program in Rattle does them. The first of eight units is told its view, all eight, a thousand times: it proposes
// to all at each report that is done. A channel holds eight messages, so that eight reports are done and the others refused with 7.
// A loop around one report: of such, clang had not ended after a quarter of an hour while `codec::encode` was inlined (docs/LOOK-BACK.md, c2).
#![tactic(auto)]

use membership::report;
use system::fresh;
use system::refusal::Refusal;
use view::{ProcessId, everyone};

fn main(rt: HostRuntime) {
    let Ok(mut system) = fresh(8) else { return };
    let mut done = 0u16;
    let mut full = 0u16;
    for _ in 0..1000 {
        match report(system, ProcessId(1), everyone(8)) {
            Ok(next) => {
                system = next;
                done = done.wrapping_add(1);
            }
            Err(refused) => {
                system = refused.system;
                if refused.refusal == Refusal::ChannelFull {
                    full = full.wrapping_add(1);
                }
            }
        }
    }
    let waiting = system.channels[7].len;
    let _ = println!(rt;
        "{done} done, {full} refused with 7, {waiting} wait from unit 1 to unit 8"
    );
}
