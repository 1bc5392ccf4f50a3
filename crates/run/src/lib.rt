// A whole sheet: from its bytes to the output's bytes.
#![tactic(auto, using(print::proofs::Typing::typing))]

ghost use Rattle.std.specs.Prelude.{◌≤◌, ◌≡◌, true, length, Ok};
ghost use Rattle.view.specs.Logic.{is_one_of};
ghost use Rattle.tallies.specs.Tally.{no_tally};
ghost use Rattle.system.specs.Fresh.{fresh_system};
ghost use Rattle.print.specs.Page.{page, typed, typed_on, StandsFirst};
ghost use Rattle.sheet.specs.Grammar.{from_column};
ghost use Rattle.sheet.specs.Reader.{lines_left};
ghost use Rattle.run.specs.Output.{printed_from, started_by, output, tallied_from, sheet_tally, sheet_limit, output_limit};

mod lines;

use crate::lines::Machine;
use print::Page;
use sheet::parse::{BadFrom, parse_first};
use sheet::reader::SheetReader;
use system::refusal::Refusal;
use tallies::Tally;

// A sheet of more bytes is a long one.
pub const SHEET_LIMIT: usize = 60_000;

// Room for what is printed for any sheet.
pub const OUTPUT_ROOM: usize = 603_400;

// What is printed of a line that is not of the form.
const BAD_LINE: u8 = Refusal::BadLine as u8;

// Where what is printed for a sheet ends, and what it counts.
#[derive(Clone, Copy)]
pub struct SheetRun {
    pub end: usize,
    pub tally: Tally,
}

// The lines that are left of a sheet after a first line that is bad from a column on.
fn all_bad(lines: SheetReader, column: usize, page: &mut Page)
    requires { length lines.sheet.now ≤ sheet_limit }
    ensures { page.new ≡ typed_on page.old (started_by (Err (from_column column)) (lines_left lines.entry)) }
{
    page.column(1, BAD_LINE, column);
    for (number, _) in (2..).zip(lines) {
        page.column(number, BAD_LINE, 0);
    }
}

// A whole sheet, printed as far as there is room. What it counts is told where that is asked for.
fn run_whole(sheet: &[u8], page: &mut Page, counting: bool) -> Tally
    ensures printed { page.new ≡ typed_on page.old (output sheet.now) }
    ensures counted { counting ≡ true → result ≡ sheet_tally sheet.now }
{
    if SHEET_LIMIT < sheet.len() {
        page.numbered(0, u8::from(Refusal::LongSheet));
        return Tally::default();
    }
    let mut lines = SheetReader::new(sheet);
    let Some(first) = lines.next() else {
        return Tally::default();
    };
    match parse_first(first) {
        Ok(n) => Machine::fresh(n).run_lines(lines, page, counting),
        Err(BadFrom(column)) => {
            all_bad(lines, column, page);
            Tally::default()
        }
    }
}

// A whole sheet, printed into a lent buffer as far as there is room, and what it counts.
#[tactic(auto, unfolding(print::specs::Page::typed_on))]
pub fn tally_sheet(sheet: &[u8], out: &mut [u8]) -> SheetRun
    ensures { (page out.new result.end ≡ typed (page out.old 0) (output sheet.now)) × (result.tally ≡ sheet_tally sheet.now) }
{
    let mut page = Page::new(out, 0);
    let tally = run_whole(sheet, &mut page, true);
    let end = page.place();
    SheetRun { end, tally }
}

// The same, where the counts are not asked for.
#[tactic(auto, unfolding(print::specs::Page::typed_on))]
pub fn run_sheet(sheet: &[u8], out: &mut [u8]) -> usize
    ensures { page out.new result ≡ typed (page out.old 0) (output sheet.now) }
{
    let mut page = Page::new(out, 0);
    let _ = run_whole(sheet, &mut page, false);
    page.place()
}

// A whole sheet, printed into a buffer that has room for it: what is printed is the buffer's first
// bytes, as many as the answer says, and the others stay.
pub fn print_sheet(sheet: &[u8], out: &mut [u8; OUTPUT_ROOM]) -> usize
    ensures { StandsFirst output_limit (output sheet.now) result out.old out.new }
{
    run_sheet(sheet, out)
}
