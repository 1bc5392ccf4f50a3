// How a line is read: piece by piece, from its first byte on.
#![tactic(auto, using(crate::proofs::Parsing::steps), unfolding(view::specs::Logic::pick, print::specs::Text::bytes, crate::specs::Cursor::byte_at, crate::specs::Cursor::digit_at, crate::specs::Cursor::process_named_at, crate::specs::Cursor::some_view, crate::specs::Cursor::view_at, crate::specs::Cursor::end_at, crate::specs::Cursor::cut_at))]

ghost use Rattle.std.specs.Prelude.{◌≤◌, length};

use crate::parse::BadFrom;
use plan::Cut;
use view::{ProcessId, with};

// A line, and the place up to which it is read.
#[derive(Clone, Copy)]
pub struct Cursor<'a> {
    pub line: &'a [u8],
    pub at: usize,
    ghost inside: { at ≤ length line.now },
}

impl Cursor<'_> {
    ghost use Rattle.std.specs.Prelude.{◌≡◌, OnErr};
    ghost use Rattle.sheet.specs.Cursor.{Reads, byte_at, text_at, digit_at, process_named_at, view_at, end_at, cut_at};

    // The next byte, from `low` to `high`.
    pub fn byte(&mut self, low: u8, high: u8) -> Result<u8, BadFrom>
        ensures reads { Reads (byte_at low high) self.old result self.new }
        ensures stays { OnErr result (self.new.at ≡ self.old.at) }
    {
        match self.line.get(self.at) {
            Some(b) if low <= *b && *b <= high => {
                self.at += 1;
                Ok(*b)
            }
            _ => Err(BadFrom(self.at + 1)),
        }
    }

    // A text.
    pub fn text(&mut self, text: &[u8]) -> Result<(), BadFrom>
        ensures { Reads (text_at text.now) self.old result self.new }
    {
        for b in text {
            self.byte(*b, *b)?;
        }
        Ok(())
    }

    // A digit.
    pub fn digit(&mut self) -> Result<u8, BadFrom>
        ensures { Reads digit_at self.old result self.new }
    {
        Ok(self.byte(b'0', b'9')? - b'0')
    }

    // ` P`: the process that it names.
    pub fn process(&mut self) -> Result<ProcessId, BadFrom>
        ensures { Reads process_named_at self.old result self.new }
    {
        self.text(b" ")?;
        Ok(ProcessId(self.digit()?))
    }

    // ` VIEW`: `-` for the empty set, else digits 1 to 8 strictly rising.
    pub fn view(&mut self) -> Result<u8, BadFrom>
        ensures { Reads view_at self.old result self.new }
    {
        self.text(b" ")?;
        if self.byte(b'-', b'-').is_ok() {
            return Ok(0);
        }
        let mut view = 0;
        for digit in b'1'..=b'8' {
            if self.byte(digit, digit).is_ok() {
                view = with(view, ProcessId(digit - b'0'));
            }
        }
        if view == 0 {
            Err(BadFrom(self.at + 1))
        } else {
            Ok(view)
        }
    }

    // The end of the line.
    pub fn end(self) -> Result<(), BadFrom>
        ensures { result ≡ end_at self.entry.line.now self.entry.at }
    {
        if self.at < self.line.len() {
            Err(BadFrom(self.at + 1))
        } else {
            Ok(())
        }
    }

    // The end of a step's line: ` cut K` may stand before it.
    pub fn cut(mut self) -> Result<Cut, BadFrom>
        ensures { result ≡ cut_at self.entry.line.now self.entry.at }
    {
        if self.end().is_ok() {
            return Ok(Cut::Whole);
        }
        self.text(b" cut ")?;
        let count = self.digit()?;
        self.end()?;
        Ok(Cut::After(count))
    }
}
