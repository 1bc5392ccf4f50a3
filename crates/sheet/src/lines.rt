// The lines of a sheet.
ghost use Rattle.std.specs.Prelude.{◌≡◌};
ghost use Rattle.sheet.specs.Lines.{line_length, next_place, line_between};

// A line of a sheet: its bytes from `start` up to `end`, and the place of the next line.
#[derive(Clone, Copy)]
pub struct Span {
    pub start: usize,
    pub end: usize,
    pub next: usize,
}

// How many bytes the first line of a text has: those up to its line feed, or all.
fn line_length(text: &[u8]) -> usize
    ensures { result ≡ line_length text.now }
{
    text.iter().position(|b| *b == b'\n').unwrap_or(text.len())
}

// The place of the next line; past the last line, the same place.
#[tactic(auto, using(crate::proofs::Laws::rest_within), unfolding(crate::specs::Lines::next_place, view::specs::Logic::pick))]
pub fn next_place(s: &[u8], at: usize) -> usize
    ensures { result ≡ next_place s.now at }
{
    if at < s.len() {
        at + line_length(&s[at..]) + 1
    } else {
        at
    }
}

// The line from a place up to the next line's, if there is one.
#[tactic(auto, unfolding(crate::specs::Lines::line_between, view::specs::Logic::pick))]
pub fn line_between(at: usize, next: usize) -> Option<Span>
    ensures { result ≡ line_between at next }
{
    (at < next).then(|| Span {
        start: at,
        end: next - 1,
        next,
    })
}
