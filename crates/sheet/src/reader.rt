// Document 01: "A sheet reader stays with the sheet it was opened on and gives out one line after
// another."
ghost use Rattle.std.specs.Prelude.{◌≡◌, ◌≤◌, IfSome, length};
ghost use Rattle.sheet.specs.Lines.{next_place, line_at};

use crate::lines::{Span, line_between, next_place};

// A sheet, and the place of the line that is given out next.
#[derive(Clone, Copy)]
pub struct SheetReader<'a> {
    pub sheet: &'a [u8],
    pub at: usize,
}

impl<'a> SheetReader<'a> {
    // A reader at the start of a sheet.
    pub fn new(sheet: &'a [u8]) -> Self
        ensures { (result.sheet ≡ sheet.entry) × (result.at ≡ 0) }
    {
        SheetReader { sheet, at: 0 }
    }

    // The reader at another place of its sheet.
    pub fn moved(self, at: usize) -> Self
        ensures { (result.sheet ≡ self.entry.sheet) × (result.at ≡ at) }
    {
        SheetReader {
            sheet: self.sheet,
            at,
        }
    }

    // The reader on the next line; past the last line it stays where it is.
    pub fn advanced(self) -> Self
        ensures { (result.sheet ≡ self.entry.sheet) × (result.at ≡ next_place self.entry.sheet.now self.entry.at) }
    {
        self.moved(next_place(self.sheet, self.at))
    }

    // The line that the reader gives out: what it passes over as it advances.
    #[tactic(auto, using(crate::proofs::Laws::in_sheet), unfolding(crate::specs::Lines::line_at))]
    pub fn current(self) -> Option<Span>
        ensures line { result ≡ line_at self.entry.sheet.now self.entry.at }
        ensures within { IfSome result (λ l. (l.start ≤ l.end) × (l.end ≤ length self.entry.sheet.now)) }
    {
        line_between(self.at, self.advanced().at)
    }
}

impl<'a> Iterator for SheetReader<'a> {
    ghost use Rattle.std.specs.Iterator.{item_count};
    ghost use Rattle.sheet.specs.Reader.{lines_left, GivesLine};

    type Item = &'a [u8];

    ghost next_gives = { GivesLine };

    ghost remaining = { item_count lines_left };

    #[tactic(auto, using(crate::proofs::Laws::line_found, crate::proofs::Laws::none_found, crate::proofs::Laws::none_next))]
    fn next(&mut self) -> Option<&'a [u8]> {
        let line = self.current()?;
        self.at = line.next;
        Some(&self.sheet[line.start..line.end])
    }
}
