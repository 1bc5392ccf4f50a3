// What a line of a sheet says.
#![tactic(auto, using(crate::proofs::FirstBytes::kinds), unfolding(view::specs::Logic::pick, print::specs::Text::bytes, crate::proofs::FirstBytes::form_at))]

ghost use Rattle.std.specs.Prelude.{◌≡◌};
ghost use Rattle.sheet.specs.Parse.{opened, parsed};

use crate::cursor::Cursor;
use plan::{Action, Step};

// A line is bad from this column on, counted from 1.
#[derive(Clone, Copy)]
pub struct BadFrom(pub usize);

// What a line after the first asks for.
#[derive(Clone, Copy)]
pub enum Line {
    // `r P VIEW`, `t Q P` and `a P Q`, each alone or with ` cut K`, and `s P`.
    Step(Step),
    // `q`: the settling run.
    Settle,
}

// What a first line says: the size of the fresh system.
pub fn parse_first(l: &[u8]) -> Result<u8, BadFrom>
    ensures { result ≡ opened l.now }
{
    let mut c = Cursor { line: l, at: 0 };
    c.text(b"u ")?;
    let size = c.byte(b'1', b'8')? - b'0';
    c.end()?;
    Ok(size)
}

// What a line after the first says: its first byte chooses the form.
pub fn parse(l: &[u8]) -> Result<Line, BadFrom>
    ensures { result ≡ parsed l.now }
{
    let mut c = Cursor { line: l, at: 0 };
    let action = match c.byte(0, u8::MAX)? {
        b'r' => Action::Report(c.process()?, c.view()?),
        b't' => Action::Receive(c.process()?, c.process()?),
        b'a' => Action::Respond(c.process()?, c.process()?),
        b's' => {
            let crash = Action::Crash(c.process()?);
            c.end()?;
            return Ok(Line::Step(Step::whole(crash)));
        }
        b'q' => {
            c.end()?;
            return Ok(Line::Settle);
        }
        _ => return Err(BadFrom(1)),
    };
    let cut = c.cut()?;
    Ok(Line::Step(Step { action, cut }))
}
