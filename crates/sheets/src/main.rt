// Runs the worked sheets of data/: a line for each says whether it prints what stands beside it.
#![tactic(auto)]

ghost use Rattle.std.specs.Prelude.{◌≡◌, ◌↔◌, IsTrue};
ghost use Rattle.run.specs.Output.{output};

use input::{ReadFailed, read_file, sheet_buffer, zeros};
use run::{OUTPUT_ROOM, print_sheet};
use std::rt::Files;

// A worked sheet: its name, its file and the file of what it prints.
struct Worked {
    name: &'static str,
    sheet: &'static str,
    output: &'static str,
}

// The worked sheets of these names.
macro_rules! worked {
    ($($name:literal,)*) => {
        &[$(Worked {
            name: $name,
            sheet: concat!($name, ".sheet"),
            output: concat!($name, ".out"),
        }),*]
    };
}

static SHEETS: &[Worked] = worked![
    // The worked sheets of document 01, and the example of section 6.6.
    "K1", "K2", "K3", "K4", "K4_full", "K5", "K7", "K9", "E66",
    // The other sheets that docs/TRAINEES.md speaks of.
    "two_agree", "retry", "goes_on_without", "mistakes", "settle",
    // Each refusal, and the lowest where several apply.
    "refused_2", "refused_3", "refused_4", "refused_5", "refused_6", "refused_7", "refused_10",
    "refused_11", "refused_13", "order", "refused_9", "sheet_60000",
    // How lines end; first lines that are no good; lines of a wrong form.
    "empty", "one_lf", "no_last_lf", "only_u", "trailing_lf", "empty_lines", "first_u0", "first_u9",
    "first_u12", "first_u_alone", "first_step", "first_empty", "first_space", "first_spaces",
    "first_after", "first_capital", "first_view", "first_cr", "first_no_lf", "first_settle",
    "bad_first", "later_u", "digits", "bad_views", "bad_forms", "columns", "settle_bad",
    "odd_bytes",
    // Stops, cut steps, late answers, full lines, agreements, and settling runs.
    "second_stop", "late_retry", "retry_not_least", "full_line", "record_waits",
    "commit_as_proposed", "stale_acc", "stopped_sender", "stop_midway", "cut", "eight_units",
    "apart", "settle_two", "settle_66", "settle_held", "settle_order",
];

// Whether this is what is printed for the sheet.
fn prints(sheet: &[u8], expected: &[u8]) -> bool
    ensures { IsTrue result ↔ (output sheet.now ≡ expected.now) }
{
    let mut out = zeros::<OUTPUT_ROOM>();
    let end = print_sheet(sheet, &mut out);
    &out[..end] == expected
}

// Whether a worked sheet prints what stands in the file beside it.
fn holds(files: &impl Files, worked: &Worked) -> Result<bool, ReadFailed> {
    let mut sheet = sheet_buffer();
    let mut expected = zeros::<OUTPUT_ROOM>();
    let sheet_len = read_file(files, worked.sheet, &mut sheet)?;
    let expected_len = read_file(files, worked.output, &mut expected)?;
    Ok(prints(&sheet[..sheet_len], &expected[..expected_len]))
}

// Says how a sheet came out. What cannot be written is not told: what is missing then shows.
fn judge(rt: &(impl Files + Print), worked: &Worked) {
    let word = match holds(rt, worked) {
        Ok(true) => "same",
        Ok(false) => "DIFFERS",
        Err(_) => "unread",
    };
    let _ = println!(rt; "{} {word}", worked.name);
}

fn main(rt: HostRuntime) {
    for worked in SHEETS {
        judge(&rt, worked);
    }
}
