// What is printed for the sheets of a class: a line for each name, and one for all of them together.
#![tactic(auto, using(print::proofs::Typing::typing, std::proofs::lemmas::List::take_min), unfolding(print::specs::Text::bytes, crate::specs::Class::share_text, crate::specs::Class::counts_text, crate::specs::Class::finding_text, crate::specs::Class::name_line, crate::specs::Class::adds_of, crate::specs::Class::all_line))]

ghost use Rattle.std.specs.Prelude.{◌≡◌, ◌++◌, length, take};
ghost use Rattle.tallies.specs.Share.{share_of};
ghost use Rattle.print.specs.Text.{decimal};
ghost use Rattle.print.specs.Page.{typed_on, StandsFirst};
ghost use Rattle.run.specs.Output.{sheet_tally};
ghost use Rattle.class.specs.Class.{name_limit, share_text, counts_text, finding_text, name_line, named, finding_of, adds_of, lined, all_line, line_limit};

pub mod chunk;
pub mod names;

use print::Page;
use run::{SHEET_LIMIT, tally_sheet};
use tallies::Tally;
use tallies::share::share_of;

// A name of more bytes is not tried, and printed no further.
pub const NAME_LIMIT: usize = 255;

// The bytes of the longest line.
pub const LINE_LIMIT: usize = 412;

// Why a sheet counts nothing: it could not be opened or read, or it is a long one.
#[derive(Clone, Copy)]
pub enum Uncounted {
    Unopened,
    TooLong,
}

// A word and a number.
fn put_labelled(page: &mut Page, word: &[u8], k: u64)
    ensures { page.new ≡ typed_on page.old (word.now ++ decimal k) }
{
    page.text(word);
    page.decimal(k as usize);
}

fn put_share(page: &mut Page, t: Tally)
    ensures { page.new ≡ typed_on page.old (share_text (share_of t)) }
{
    let s = share_of(t);
    put_labelled(page, b" share ", s.committed);
    put_labelled(page, b"/", s.proposals);
}

fn put_counts(page: &mut Page, t: Tally)
    ensures { page.new ≡ typed_on page.old (counts_text t) }
{
    put_labelled(page, b" sent ", t.sent);
    put_labelled(page, b" taken ", t.taken);
    put_labelled(page, b" waiting ", t.waiting);
    put_labelled(page, b" lost ", t.lost);
    put_share(page, t);
}

fn put_finding(page: &mut Page, finding: Result<Tally, Uncounted>)
    ensures { page.new ≡ typed_on page.old (finding_text finding) }
{
    match finding {
        Ok(t) => put_counts(page, t),
        Err(Uncounted::Unopened) => page.text(b" unopened"),
        Err(Uncounted::TooLong) => page.text(b" long"),
    }
}

// The first bytes of a name.
fn put_name(page: &mut Page, name: &[u8])
    ensures { page.new ≡ typed_on page.old (take name_limit name.now) }
{
    page.text(&name[..NAME_LIMIT.min(name.len())]);
}

fn put_line(page: &mut Page, name: &[u8], finding: Result<Tally, Uncounted>)
    ensures { page.new ≡ typed_on page.old (name_line name.now finding) }
{
    put_name(page, name);
    put_finding(page, finding);
    page.byte(b'\n');
}

// The line of a name, printed into a buffer that has room for it: it is the buffer's first bytes, as
// many as the answer says, and the others stay.
fn print_line(name: &[u8], finding: Result<Tally, Uncounted>, out: &mut [u8; LINE_LIMIT]) -> usize
    ensures { StandsFirst line_limit (name_line name.now finding) result out.old out.new }
{
    let mut page = Page::new(out, 0);
    put_line(&mut page, name, finding);
    page.place()
}

// What a name adds to the class.
fn adds(finding: Result<Tally, Uncounted>) -> Tally
    ensures { result ≡ adds_of finding }
{
    finding.unwrap_or_default()
}

// What a sheet counts: it is run with no room for what it prints.
fn sheet_tally(sheet: &[u8]) -> Tally
    ensures { result ≡ sheet_tally sheet.now }
{
    tally_sheet(sheet, &mut []).tally
}

// What came of a name, and of its sheet, where that was opened and read.
#[tactic(auto, unfolding(view::specs::Logic::pick, crate::specs::Class::sheet_finding, crate::specs::Class::finding_of))]
pub fn find(name: &[u8], sheet: Option<&[u8]>) -> Result<Tally, Uncounted>
    ensures { result ≡ finding_of (named name.now sheet.entry) }
{
    if NAME_LIMIT < name.len() {
        return Err(Uncounted::Unopened);
    }
    let Some(sheet) = sheet else {
        return Err(Uncounted::Unopened);
    };
    if SHEET_LIMIT < sheet.len() {
        return Err(Uncounted::TooLong);
    }
    Ok(sheet_tally(sheet))
}

// How long the line of a name is, and the class's tally after it.
#[derive(Clone, Copy)]
pub struct ClassLine {
    pub end: usize,
    pub total: Tally,
}

// The line of a name, and what its sheet adds to the class.
pub fn print_name(
    total: Tally,
    name: &[u8],
    sheet: Option<&[u8]>,
    out: &mut [u8; LINE_LIMIT],
) -> ClassLine
    ensures line { StandsFirst line_limit (lined total (named name.now sheet.entry)).text result.end out.old out.new }
    ensures total { result.total ≡ (lined total (named name.now sheet.entry)).total }
{
    let finding = find(name, sheet);
    let mut after = total;
    after += adds(finding);
    let end = print_line(name, finding, out);
    ClassLine { end, total: after }
}

// The last line, for all names together.
pub fn print_all(total: Tally, out: &mut [u8; LINE_LIMIT]) -> usize
    ensures { StandsFirst line_limit (all_line total) result out.old out.new }
{
    print_line(b"all", Ok(total), out)
}
