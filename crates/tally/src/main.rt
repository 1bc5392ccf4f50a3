// The instructor's tally: reads the names of sheets from standard input, one to a line, and writes
// what each sheet counts, and all of them together, to standard output.
#![tactic(auto)]

ghost use Rattle.std.specs.Prelude.{OnOk};
ghost use Rattle.input.specs.Received.{IsPrefixLen, read_len};
ghost use Rattle.class.specs.Names.{NoneLeft};
ghost use Rattle.class.specs.Reading.{names_left};

use class::names::{NAME_ROOM, Names};
use class::{LINE_LIMIT, NAME_LIMIT, print_all, print_name};
use input::{Failure, ReadFailed, Source, read_file, sheet_buffer, zeros};
use std::rt::Files;
use tallies::Tally;

// Opens and reads a sheet. A name that is too long is not tried, and one that is not UTF-8 is no path to
// the library: each counts as a read that failed.
fn read_sheet(files: &impl Files, name: &[u8], buf: &mut [u8]) -> Result<usize, ReadFailed>
    ensures { IsPrefixLen (read_len result) buf.new }
{
    let unread = ReadFailed { len: 0 };
    if NAME_LIMIT < name.len() {
        return Err(unread);
    }
    let path = str::from_utf8(name).map_err(|_| unread)?;
    read_file(files, path, buf)
}

// Reads the sheet of a name and writes its line: the class's tally after it.
fn tally_name(rt: &(impl Files + Print), total: Tally, name: &[u8]) -> Result<Tally, Failure> {
    let mut room = sheet_buffer();
    let sheet = match read_sheet(rt, name, &mut room) {
        Ok(len) => Some(&room[..len]),
        Err(_) => None,
    };
    let mut out = zeros::<LINE_LIMIT>();
    let line = print_name(total, name, sheet, &mut out);
    rt.write_all(&out[..line.end])
        .map_err(|_| Failure::Unwritten)?;
    Ok(line.total)
}

// Writes a line for each name, and one for all of them together. Without a failure no name is left.
fn tally_class<R: Source>(names: &mut Names<R>, rt: &(impl Files + Print)) -> Result<(), Failure>
    ensures { OnOk result (NoneLeft (names_left R.remaining names.new)) }
{
    let mut total = Tally::default();
    let mut name = zeros::<NAME_ROOM>();
    while let Some(len) = names.next_name(&mut name)? {
        total = tally_name(rt, total, &name[..len])?;
    }
    let mut out = zeros::<LINE_LIMIT>();
    let end = print_all(total, &mut out);
    rt.write_all(&out[..end]).map_err(|_| Failure::Unwritten)
}

fn main(rt: HostRuntime) {
    let mut names = Names::new(rt.stdin());
    if let Err(failure) = tally_class(&mut names, &rt) {
        let _ = eprintln!(rt; "tally: {failure}");
    }
}
