// What is printed: texts are typed on a page.
#![tactic(auto, using(crate::proofs::Typing::typing), unfolding(view::specs::Logic::pick, crate::specs::Text::bytes, crate::specs::Print::numbered_line, crate::specs::Print::column_line, crate::specs::Print::entry_text, crate::specs::Print::unit_line))]

ghost use Rattle.std.specs.Prelude.{◌≡◌, ◌%◌, [], ◌∷◌, ◌++◌};
ghost use Rattle.view.specs.Logic.{pick};
ghost use Rattle.system.specs.System.{process_at};
ghost use Rattle.image.specs.Image.{system_in};
ghost use Rattle.print.specs.Text.{bytes, digit, digits, decimal, member_text, view_text};
ghost use Rattle.print.specs.Page.{page_from, typed_on};
ghost use Rattle.print.specs.Print.{numbers, three_numbers, numbered_line, column_line, entry_text, history_text, unit_line, unit_lines};

use image::{entry_at, size, variables_at};
use view::{GroupIndex, ProcessId};

// A lent buffer, and the place in it where the next byte goes. A byte for which there is no room is dropped.
// No `impl Model`: of a struct with one, its maker does not learn what the lent buffer holds in the end.
#[derive(Drop)]
pub struct Page<'a> {
    buffer: &'a mut [u8],
    place: usize,
}

// No `fmt::Write`, and no `Display` of what is printed: `write!` promises its text only where it answers `Ok`, and to
// print never fails.
impl<'a> Page<'a> {
    pub fn new(buffer: &'a mut [u8], place: usize) -> Page<'a>
        ensures { result ≡ page_from buffer.entry place }
    {
        Page { buffer, place }
    }

    pub fn place(&self) -> usize
        ensures { result ≡ self.now.place }
    {
        self.place
    }

    pub fn byte(&mut self, b: u8)
        ensures { self.new ≡ typed_on self.old (b ∷ []) }
    {
        // The place is not read again after the byte is written: the compiler keeps it in a register.
        let at = self.place;
        if at < self.buffer.len() {
            self.buffer[at] = b;
            self.place = at + 1;
        }
    }

    // Byte by byte: for texts as short as these `copy_from_slice` takes half as long again.
    pub fn text(&mut self, text: &[u8])
        ensures { self.new ≡ typed_on self.old text.now }
    {
        for b in text {
            self.byte(*b);
        }
    }

    // The last digit of a number.
    fn digit(&mut self, k: usize)
        ensures { self.new ≡ typed_on self.old (digit (k % 10)) }
    {
        self.byte(b'0' + (k % 10) as u8);
    }

    // The last n digits of a number, with no zero in front.
    fn digits(&mut self, n: u8, k: usize)
        ensures { self.new ≡ typed_on self.old (digits n k) }
    {
        if n != 0 {
            if 10 <= k {
                self.digits(n - 1, k / 10);
            }
            self.digit(k);
        }
    }

    // A number in decimal. By hand: std writes numbers by `write!` alone, which promises its text only
    // where it answers `Ok`. Up to five digits are typed without a turn: no line of a sheet has a longer number.
    pub fn decimal(&mut self, k: usize)
        ensures { self.new ≡ typed_on self.old (decimal k) }
    {
        if k < 10 {
            return self.digit(k);
        }
        let tens = k / 10;
        if tens < 10 {
            self.digit(tens);
            return self.digit(k);
        }
        let hundreds = tens / 10;
        if hundreds < 10 {
            self.digit(hundreds);
            self.digit(tens);
            return self.digit(k);
        }
        let thousands = hundreds / 10;
        if thousands < 10 {
            self.digit(thousands);
            self.digit(hundreds);
            self.digit(tens);
            return self.digit(k);
        }
        let myriads = thousands / 10;
        if myriads < 10 {
            self.digit(myriads);
            self.digit(thousands);
            self.digit(hundreds);
            self.digit(tens);
            return self.digit(k);
        }
        self.digits(20, k);
    }

    // The digit of a process, if the view names it.
    fn member(&mut self, view: u8, p: ProcessId)
        ensures { self.new ≡ typed_on self.old (member_text view p.0) }
    {
        if view::has(view, p) {
            self.byte(b'0' + p.0);
        }
    }

    // The digits of a view, rising.
    pub fn view(&mut self, view: u8)
        ensures { self.new ≡ typed_on self.old (view_text view) }
    {
        for k in 1..=8 {
            self.member(view, ProcessId(k));
        }
    }

    // `position=view`, unless the view is empty.
    fn entry(&mut self, i: GroupIndex, view: u8)
        ensures { self.new ≡ typed_on self.old (entry_text i.0 view) }
    {
        if view != 0 {
            self.spaced(i.0 as usize);
            self.byte(b'=');
            self.view(view);
        }
    }

    // Every position of a process's history that is not empty.
    fn history(&mut self, image: &[u8], p: ProcessId)
        ensures { self.new ≡ typed_on self.old (history_text (process_at (system_in image.now) p.0).history) }
    {
        for i in 1..=32 {
            let i = GroupIndex(i);
            self.entry(i, entry_at(image, p, i));
        }
    }

    fn state(&mut self, crashed: bool)
        ensures { self.new ≡ typed_on self.old (pick crashed (bytes " stopped") (bytes " live")) }
    {
        if crashed {
            self.text(b" stopped");
        } else {
            self.text(b" live");
        }
    }

    // The line of one process.
    fn unit(&mut self, image: &[u8], p: ProcessId)
        ensures { self.new ≡ typed_on self.old (unit_line p.0 (process_at (system_in image.now) p.0)) }
    {
        let x = variables_at(image, p);
        self.text(b"unit ");
        self.decimal(p.0 as usize);
        self.state(x.crashed);
        self.text(b" next ");
        self.decimal(x.next.0 as usize);
        self.history(image, p);
        self.text(b"\n");
    }

    // The lines of all processes of the system that an image holds.
    pub fn units(&mut self, image: &[u8])
        ensures { self.new ≡ typed_on self.old (unit_lines (system_in image.now)) }
    {
        let n = size(image).min(8);
        for p in 1..=n {
            self.unit(image, ProcessId(p));
        }
    }

    // A space and a number.
    fn spaced(&mut self, k: usize)
        ensures { self.new ≡ typed_on self.old (bytes " " ++ decimal k) }
    {
        self.byte(b' ');
        self.decimal(k);
    }

    // A line's number in the sheet and its refusal number, with no line feed after them.
    fn numbers(&mut self, line: usize, number: u8)
        ensures { self.new ≡ typed_on self.old (numbers line number) }
    {
        self.decimal(line);
        self.spaced(number as usize);
    }

    // A line's number in the sheet and its refusal number.
    pub fn numbered(&mut self, line: usize, number: u8)
        ensures { self.new ≡ typed_on self.old (numbered_line line number) }
    {
        self.numbers(line, number);
        self.byte(b'\n');
    }

    // The same with a third number after them, and no line feed.
    pub fn three_numbers(&mut self, line: usize, number: u8, third: usize)
        ensures { self.new ≡ typed_on self.old (three_numbers line number third) }
    {
        self.numbers(line, number);
        self.spaced(third);
    }

    // The same with a column after them.
    pub fn column(&mut self, line: usize, number: u8, column: usize)
        ensures { self.new ≡ typed_on self.old (column_line line number column) }
    {
        self.three_numbers(line, number, column);
        self.byte(b'\n');
    }
}
