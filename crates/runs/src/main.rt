// The program `runs`: reads one line from standard input and writes the two counts, or a refusal
// number, to standard output. Where the input cannot be read, nothing is written there.
#![tactic(auto)]

use input::{Failure, read_to_end};
use runs_text::{OUTPUT_ROOM, print_runs};
use std::io::Read;

// Room for the line and one byte more, by which a longer input shows.
const LINE_ROOM: usize = 5;

// Reads a line, does the walk that it asks for and writes all that is printed for it. Program `bench` says why this stands in both.
fn run_line(stdin: &mut impl Read, rt: &impl Print) -> Result<(), Failure> {
    let mut line = [0; LINE_ROOM];
    let len = read_to_end(stdin, &mut line).map_err(|_| Failure::Unread("input"))?;
    let mut out = [0; OUTPUT_ROOM];
    let end = print_runs(&line[..len], &mut out);
    rt.write_all(&out[..end]).map_err(|_| Failure::Unwritten)
}

fn main(rt: HostRuntime) {
    if let Err(failure) = run_line(&mut rt.stdin(), &rt) {
        let _ = eprintln!(rt; "runs: {failure}");
    }
}
