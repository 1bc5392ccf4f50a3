// Views: sets of up to eight processes, kept as one byte. Document 01 calls a process a unit. A view is a plain byte, and no struct
// with methods: images, lists and calls from C hold any byte, and the functions here take each.
#![tactic(auto)]

ghost use Rattle.std.specs.Prelude.{◌≡◌, ◌<◌, ◌&&◌, ◌||◌, IfSome};
ghost use Rattle.view.specs.Logic.{is_one_of, place_of};
ghost use Rattle.view.specs.View.{has, within, subset, with, minus, switched, everyone, least_of, count_of, joined, first_members};

// Document 01: "A unit's number and a position in the history each keep a kind of their own".
// The number of a process, counted from 1.
#[derive(Clone, Copy, PartialEq, Eq)]
pub struct ProcessId(pub u8);

// A position in the history (the paper's group index), counted from 1.
#[derive(Clone, Copy, PartialEq, Eq, PartialOrd, Ord)]
pub struct GroupIndex(pub u8);

// One of n processes.
pub fn is_one_of(n: u8, p: ProcessId) -> bool
    ensures { result ≡ is_one_of n p.0 }
{
    1 <= p.0 && p.0 <= n
}

// Where an array of n has the element numbered k, counted from 0, if it has one.
#[tactic(auto, unfolding(crate::specs::Logic::place_of, crate::specs::Logic::pick))]
pub fn place(n: u8, k: u8) -> Option<usize>
    ensures place { result ≡ place_of n k }
    ensures within { IfSome result (λ j. j < n) }
{
    if 1 <= k && k <= n {
        Some((k - 1) as usize)
    } else {
        None
    }
}

// The view names the process.
pub fn has(view: u8, p: ProcessId) -> bool
    ensures { result ≡ has view p.0 }
{
    is_one_of(8, p) && (view >> (p.0 - 1)) % 2 == 1
}

// The view names only processes 1 to n.
pub fn within(n: u8, view: u8) -> bool
    ensures { result ≡ within n view }
{
    8 <= n || view >> n == 0
}

// Each process of a is one of b.
pub fn subset(a: u8, b: u8) -> bool
    ensures { result ≡ subset a b }
{
    a & b == a
}

// The view with a process added.
pub fn with(view: u8, p: ProcessId) -> u8
    ensures { result ≡ with view p.0 }
{
    if is_one_of(8, p) {
        view | (1 << (p.0 - 1))
    } else {
        view
    }
}

// The processes of a that b lacks.
pub fn minus(a: u8, b: u8) -> u8
    ensures { result ≡ minus a b }
{
    a ^ (a & b)
}

// The view with a process or without it, as the test says.
pub fn switched(view: u8, p: ProcessId, on: bool) -> u8
    ensures { result ≡ switched view p.0 on }
{
    if on {
        with(view, p)
    } else {
        minus(view, with(0, p))
    }
}

// The set of all of n processes.
pub fn everyone(n: u8) -> u8
    ensures { result ≡ everyone n }
{
    if 8 <= n { 255 } else { (1 << n) - 1 }
}

// The least process of a view, 0 for the empty view: one more than the zeros below its lowest one. No Option: a report or a
// Retry asks whether p is the least, and of the empty view it is none, be p 0 or not.
pub fn least(view: u8) -> ProcessId
    ensures { result ≡ least_of view }
{
    if view == 0 {
        ProcessId(0)
    } else {
        ProcessId(view.trailing_zeros() as u8 + 1)
    }
}

// How many processes a view names.
pub fn count(view: u8) -> u8
    ensures { result ≡ count_of view }
{
    view.count_ones() as u8
}

// The process joins a set of fewer than m, where the view names it.
fn join(m: u8, view: u8, p: ProcessId, set: u8) -> u8
    ensures { result ≡ joined m view p.0 set }
{
    if has(view, p) && count(set) < m {
        with(set, p)
    } else {
        set
    }
}

// The first m processes of a view, in rising order; all of it where it names no more.
pub fn first_of(m: u8, view: u8) -> u8
    ensures { result ≡ first_members m view }
{
    let mut set = 0;
    for i in 1..=8 {
        set = join(m, view, ProcessId(i), set);
    }
    set
}
