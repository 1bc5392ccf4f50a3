// The share of proposals for which a Commit was sent.
ghost use Rattle.std.specs.Prelude.{◌≡◌};
ghost use Rattle.tallies.specs.Share.{gcd, share_of};

use crate::Tally;

// So many out of so many.
#[derive(Clone, Copy)]
pub struct Share {
    pub committed: u64,
    pub proposals: u64,
}

// The greatest common divisor: std has none. Euclid's rule counts nothing, and ends when nothing is left.
fn divisor(a: u64, b: u64) -> u64
    ensures { result ≡ gcd a b }
{
    let mut x = a;
    let mut y = b;
    while y != 0 {
        let rest = x % y;
        x = y;
        y = rest;
    }
    x
}

// In lowest terms; 0/1 without proposals.
pub fn share_of(t: Tally) -> Share
    ensures { result ≡ share_of t }
{
    if t.proposals == 0 {
        Share {
            committed: 0,
            proposals: 1,
        }
    } else {
        let d = divisor(t.committed, t.proposals);
        Share {
            committed: t.committed / d,
            proposals: t.proposals / d,
        }
    }
}
