// The lines of a sheet, and the system that they run on.
ghost use Rattle.std.specs.Prelude.{◌≡◌, true};
ghost use Rattle.sound.specs.Sound.{sound_system};
ghost use Rattle.image.specs.Image.{system_in};
ghost use Rattle.print.specs.Page.{typed_on};
ghost use Rattle.run.specs.Output.{ending_text, sheet_limit};

use crate::BAD_LINE;
use counting::{attempt_tallied, still_waiting};
use engine::attempt;
use fresh::put_fresh;
use image::{IMAGE, blank_image};
use plan::Step;
use print::Page;
use settle::settle;
use settling::Ending;
use sheet::parse::{BadFrom, Line, parse};
use sheet::reader::SheetReader;
use system::refusal::number_of;
use tallies::Tally;

// What the lines of a sheet run on: an image whose system is sound.
#[derive(Drop)]
pub(crate) struct Machine {
    image: [u8; IMAGE],
    ghost sound: { sound_system (system_in image) ≡ true },
}

// How a settling run ended.
#[tactic(auto, unfolding(print::specs::Text::bytes, crate::specs::Output::ending_text))]
fn put_ending(page: &mut Page, ending: Ending)
    ensures { page.new ≡ typed_on page.old (ending_text ending) }
{
    match ending {
        Ending::Rest => page.text(b" rest\n"),
        Ending::Held => page.text(b" held\n"),
        Ending::Budget => page.text(b" budget\n"),
    }
}

impl Machine {
    ghost use Rattle.std.specs.Prelude.{◌≤◌, Ok, length};
    ghost use Rattle.view.specs.Logic.{is_one_of};
    ghost use Rattle.tallies.specs.Tally.{no_tally};
    ghost use Rattle.system.specs.Fresh.{fresh_system};
    ghost use Rattle.sheet.specs.declared.parse.Line.TheVariants.{Settle};
    ghost use Rattle.sheet.specs.declared.parse.Line.TheVariants.{Step as DoStep};
    ghost use Rattle.sheet.specs.Reader.{lines_left};
    ghost use Rattle.run.specs.Output.{line_done, printed_from, tallied_from, Done};

    // The fresh system of n processes, 1 to 8.
    pub(crate) fn fresh(n: u8) -> Machine
        requires { is_one_of 8 n ≡ true }
        ensures { system_in result.image ≡ fresh_system n }
    {
        let mut image = blank_image();
        put_fresh(&mut image, n);
        Machine { image }
    }

    // A settling run, and what is printed for it.
    fn settle(&mut self, page: &mut Page, number: usize) -> Tally
        ensures { Done true (line_done number (system_in self.old.image) (Ok Settle)) page.old page.new (system_in self.new.image) result }
    {
        match settle(&mut self.image) {
            Ok(run) => {
                page.three_numbers(number, 0, run.steps as usize);
                put_ending(page, run.ending);
                run.tally
            }
            Err(refusal) => {
                page.three_numbers(number, u8::from(refusal), 0);
                put_ending(page, Ending::Held);
                Tally::default()
            }
        }
    }

    // A step, and what is printed for it. What it counts is told where that is asked for. `counting` is a value: of a
    // const parameter, which was tried, the proofs know only the number behind it; and a lent `Option<&mut Tally>` would be
    // asked for at the same places, and lent on at each line.
    fn step(&mut self, page: &mut Page, number: usize, o: Step, counting: bool) -> Tally
        ensures { Done counting (line_done number (system_in self.old.image) (Ok (DoStep o))) page.old page.new (system_in self.new.image) result }
    {
        if counting {
            match attempt_tallied(&mut self.image, o) {
                Ok(tally) => {
                    page.numbered(number, 0);
                    tally
                }
                Err(refusal) => {
                    page.numbered(number, u8::from(refusal));
                    Tally::default()
                }
            }
        } else {
            page.numbered(number, number_of(attempt(&mut self.image, o)));
            Tally::default()
        }
    }

    // A line after the first: its step or settling run is done, or it is refused; and what is printed
    // for it.
    fn line(
        &mut self,
        page: &mut Page,
        number: usize,
        line: Result<Line, BadFrom>,
        counting: bool,
    ) -> Tally
        ensures { Done counting (line_done number (system_in self.old.image) line) page.old page.new (system_in self.new.image) result }
    {
        match line {
            Ok(Line::Step(o)) => self.step(page, number, o, counting),
            Ok(Line::Settle) => self.settle(page, number),
            Err(BadFrom(column)) => {
                page.column(number, BAD_LINE, column);
                Tally::default()
            }
        }
    }

    // The lines that are left of a sheet, and then the line of each process.
    pub(crate) fn run_lines(mut self, lines: SheetReader, page: &mut Page, counting: bool) -> Tally
        requires { length lines.sheet.now ≤ sheet_limit }
        ensures printed { page.new ≡ typed_on page.old (printed_from 2 (system_in self.image) (lines_left lines.entry)) }
        ensures counted { counting ≡ true → result ≡ tallied_from 2 no_tally (system_in self.image) (lines_left lines.entry) }
    {
        let mut tally = Tally::default();
        for (number, line) in (2..).zip(lines) {
            let one = self.line(page, number, parse(line), counting);
            if counting {
                tally += one;
            }
        }
        page.units(&self.image);
        if counting {
            tally += still_waiting(&self.image);
        }
        tally
    }
}
