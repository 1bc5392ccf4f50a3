// The bench program: reads one sheet from standard input and writes what is printed for it to
// standard output. Where the sheet cannot be read, nothing is written there.
#![tactic(auto)]

use input::{Failure, read_to_end, sheet_buffer, zeros};
use run::{OUTPUT_ROOM, print_sheet};
use std::io::Read;

// Reads a sheet, runs it and writes all that is printed for it. Program `runs` has five such lines: one function for both would
// take two rooms, a word and the function between, to be called in two places.
fn run_sheet(stdin: &mut impl Read, rt: &impl Print) -> Result<(), Failure> {
    let mut sheet = sheet_buffer();
    let len = read_to_end(stdin, &mut sheet).map_err(|_| Failure::Unread("sheet"))?;
    let mut out = zeros::<OUTPUT_ROOM>();
    let end = print_sheet(&sheet[..len], &mut out);
    rt.write_all(&out[..end]).map_err(|_| Failure::Unwritten)
}

fn main(rt: HostRuntime) {
    if let Err(failure) = run_sheet(&mut rt.stdin(), &rt) {
        let _ = eprintln!(rt; "bench: {failure}");
    }
}
