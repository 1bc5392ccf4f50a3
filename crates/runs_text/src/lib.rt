// The input line of a walk, and what is printed for it.
#![tactic(auto, using(print::proofs::Typing::typing), unfolding(view::specs::Logic::pick, print::specs::Text::bytes, crate::specs::RunsText::walk_text))]

ghost use Rattle.std.specs.Prelude.{◌≡◌};
ghost use Rattle.print.specs.Page.{typed_on, StandsFirst};
ghost use Rattle.runs_text.specs.RunsText.{walk_for, walk_text, runs_output, answer_limit};

use orders::{RunCounts, count_runs};
use print::Page;
use system::refusal::Refusal;

// The walk that the line asks for: N and DEPTH, one digit each, with a line feed or without.
#[tactic(auto, unfolding(view::specs::Logic::pick, crate::specs::RunsText::three_bytes, crate::specs::RunsText::walk_for))]
fn walk_for(input: &[u8]) -> Result<RunCounts, Refusal>
    ensures { result ≡ walk_for input.now }
{
    match input {
        [n, b' ', depth] | [n, b' ', depth, b'\n']
            if n.is_ascii_digit() && depth.is_ascii_digit() => {
            count_runs(*n - b'0', *depth - b'0')
        }
        _ => Err(Refusal::BadLine),
    }
}

// The two counts, or the refusal number.
fn put_walk(page: &mut Page, walk: Result<RunCounts, Refusal>)
    ensures { page.new ≡ typed_on page.old (walk_text walk) }
{
    match walk {
        Ok(counts) => {
            page.decimal(counts.runs as usize);
            page.byte(b' ');
            page.decimal(counts.entered as usize);
        }
        Err(refusal) => page.decimal(u8::from(refusal) as usize),
    }
    page.byte(b'\n');
}

// Room for what is printed for any line.
pub const OUTPUT_ROOM: usize = 42;

// What is printed for an input, into a buffer that has room for it: the buffer's first bytes, as many
// as the answer says; the others stay.
pub fn print_runs(input: &[u8], out: &mut [u8; OUTPUT_ROOM]) -> usize
    ensures { StandsFirst answer_limit (runs_output input.now) result out.old out.new }
{
    let mut page = Page::new(out, 0);
    put_walk(&mut page, walk_for(input));
    page.place()
}
