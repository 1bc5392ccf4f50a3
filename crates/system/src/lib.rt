// The system: up to eight processes and the channels between them. Document 01 calls it a table.
#![tactic(auto)]

ghost use Rattle.std.specs.Prelude.{◌≡◌};
ghost use Rattle.system.specs.Fresh.{fresh_variables, fresh_process, fresh_system, fresh_of};
ghost use Rattle.system.specs.Outcome.{outcome_of};

pub mod refusal;

use crate::refusal::Refusal;
use channel::Channel;
use view::{GroupIndex, everyone};

// A recorded proposal.
#[derive(Clone, Copy, PartialEq, Eq)]
pub struct Proposal {
    pub view: u8,
    pub index: GroupIndex,
}

// The views committed at group indices 1 to 32; the empty view where there is none.
#[derive(Clone, Copy)]
pub struct History {
    pub entries: [u8; 32],
}

// The single variables of one process: whether it has stopped, and Figure 3's v_p, Next, PropOut, v*
// and ack.
#[derive(Clone, Copy)]
pub struct Variables {
    pub crashed: bool,
    pub view: u8,
    pub next: GroupIndex,
    pub propout: GroupIndex,
    pub proposal: u8,
    pub acks: u8,
}

// A process: its variables, for each process the proposal recorded from it (Figure 3's Prop, v and
// PropIn), and its history.
#[derive(Clone, Copy)]
pub struct Process {
    pub variables: Variables,
    pub pending: [Option<Proposal>; 8],
    pub history: History,
}

// The channel from process q to process p is the one at 8 * (q - 1) + p - 1. Any caller may hand over
// anything: every field is public, and every function takes every value.
#[derive(Clone, Copy)]
pub struct System {
    pub n: u8,
    pub processes: [Process; 8],
    pub channels: [Channel; 64],
    // For each process, the set of those that it may trust again.
    pub trust: [u8; 8],
}

// A refusal, and the system that was handed over.
#[derive(Clone, Copy)]
pub struct Refused {
    pub refusal: Refusal,
    pub system: System,
}

impl Variables {
    // Those of a fresh process, of n.
    #[tactic(auto, unfolding(crate::specs::Fresh::fresh_variables))]
    pub fn fresh(n: u8) -> Variables
        ensures { result ≡ fresh_variables n }
    {
        Variables {
            crashed: false,
            view: everyone(n),
            next: GroupIndex(2),
            propout: GroupIndex(1),
            proposal: 0,
            acks: 0,
        }
    }
}

#[tactic(auto, unfolding(crate::specs::Fresh::fresh_process, crate::specs::Fresh::fresh_variables, crate::specs::Process::with_entry, view::specs::Logic::put))]
fn fresh_process(n: u8) -> Process
    ensures { result ≡ fresh_process n }
{
    let variables = Variables::fresh(n);
    let mut entries = [0; 32];
    entries[0] = variables.view;
    Process {
        variables,
        pending: [None; 8],
        history: History { entries },
    }
}

fn fresh_system(n: u8) -> System
    ensures { result ≡ fresh_system n }
{
    System {
        n,
        processes: [fresh_process(n); 8],
        channels: [Channel::empty(); 64],
        trust: [0; 8],
    }
}

// The fresh system of n processes; for another number than 1 to 8, a refusal and a system of none.
pub fn fresh(n: u8) -> Result<System, Refused>
    ensures { outcome_of result ≡ fresh_of n }
{
    if 1 <= n && n <= 8 {
        Ok(fresh_system(n))
    } else {
        Err(Refused {
            refusal: Refusal::Stranger,
            system: fresh_system(0),
        })
    }
}
