// Reading an input whole, into a buffer.
#![tactic(auto)]

ghost use Rattle.std.specs.Prelude.{ℕ, List, ⊤, ◌+◌, ◌<◌, ◌≤◌, ◌≡◌, drop, length, take, IfErr, IfOk, IfSome, MatchResult, OnErr, Some};
ghost use Rattle.std.specs.Io.{ReadsAtMost};
ghost use Rattle.std.specs.Io.KnownBytes.{Consumes, IsAtEnd, Keeps, ReadConsumes};
ghost use Rattle.input.specs.Failure.{failure_text};
ghost use Rattle.input.specs.Received.{FileRead, IsPrefixLen, ReadAt, ReadOn, Received, Zeros, read_len};

use std::io::Read;
use std::rt::Files;
use std::{fmt, fs, io};

// Room for what one read brings.
pub const CHUNK_ROOM: usize = 65_536;

// A read failed: the buffer's first `len` bytes are what came before.
#[derive(Clone, Copy, PartialEq, Eq, Debug)]
pub struct ReadFailed {
    pub len: usize,
}

// What a program could not do: read what it is given, which a word names, or write its output.
#[derive(Clone, Copy, Debug)]
pub enum Failure {
    Unread(&'static str),
    Unwritten,
}

impl fmt::Display for Failure {
    ghost output = { λ failure. Some (failure_text failure) };

    fn fmt<W: fmt::Write>(&self, f: &mut fmt::Formatter<W>) -> fmt::Result {
        match self {
            Failure::Unread(what) => write!(f, "the {what} cannot be read"),
            Failure::Unwritten => write!(f, "the output cannot be written"),
        }
    }
}

// A reader of which a failed read leaves a mark. What the mark is, no proof here knows, so that only a
// function that has read, and has met a failure, can promise it.
pub trait Source: Read {
    ghost failed: { Self → Type 0 };

    fn read_once(&mut self, buf: &mut [u8]) -> io::Result<usize>
        ensures bound { ReadsAtMost result buf.new }
        ensures bytes { ReadConsumes (Self.remaining self.old) (Self.remaining self.new) result buf.new }
        ensures failed { OnErr result (failed self.new) };
}

// Of the world nothing is known: a reader's mark is one that every reader has.
impl<R: Read> Source for R {
    ghost failed = { λ _. ⊤ };

    fn read_once(&mut self, buf: &mut [u8]) -> io::Result<usize> {
        self.read(buf)
    }
}

// What opens files: a file that was opened at a path, and a path that was not, have a mark too.
pub trait Shelf {
    type File: Source + Drop;

    ghost opened: { Self → List ℕ → Self.File → Type 0 };

    ghost unopened: { Self → List ℕ → Type 0 };

    fn open(&self, path: &str) -> io::Result<Self::File>
        ensures { MatchResult result (opened self.now path.now) (λ _. unopened self.now path.now) };
}

impl<F: Files> Shelf for F {
    type File = F::File;

    ghost opened = { λ _ _ _. ⊤ };

    ghost unopened = { λ _ _. ⊤ };

    fn open(&self, path: &str) -> io::Result<F::File> {
        fs::open(self, path)
    }
}

// A new buffer.
pub fn zeros<const N: usize>() -> [u8; N]
    ensures { Zeros N result }
{
    [0; N]
}

// Room for a sheet and one byte more, by which a long sheet shows.
pub fn sheet_buffer() -> [u8; 60_001]
    ensures { Zeros 60001 result }
{
    zeros()
}

// Room for what one read brings.
pub fn large_buffer() -> [u8; CHUNK_ROOM]
    ensures { Zeros 65536 result }
{
    zeros()
}

// One read, put at a place of the buffer: how many bytes came. It goes by way of a chunk: of the bytes
// in the slice that it is lent, a reader promises nothing, not even of those past its count.
fn read_some<R: Source>(
    reader: &mut R,
    buf: &mut [u8],
    at: usize,
    chunk: &mut [u8],
) -> Result<usize, ReadFailed>
    requires { at ≤ length buf.old }
    ensures placed { IfOk result (λ n. ReadAt n at buf.old buf.new chunk.new) }
    ensures bytes { IfOk result (λ n. Consumes (R.remaining reader.old) (R.remaining reader.new) (take n chunk.new)) }
    ensures end { IfOk result (λ n. n ≡ 0 → at < length buf.old → 0 < length chunk.old → IsAtEnd (R.remaining reader.new)) }
    ensures failed { IfErr result (λ e. (e.len ≡ at) × (buf.new ≡ buf.old)) }
    ensures none_lost { OnErr result (Keeps (R.remaining reader.old) (R.remaining reader.new)) }
    ensures mark { OnErr result (R.failed reader.new) }
{
    let room = chunk.len().min(buf.len() - at);
    let more = reader
        .read_once(&mut chunk[..room])
        .map_err(|_| ReadFailed { len: at })?;
    buf[at..at + more].copy_from_slice(&chunk[..more]);
    Ok(more)
}

// Reads until the buffer is full, the input ends or a read fails: how many bytes came. Where it is
// known what the reader gives, that is what stands in the buffer. No count: each turn goes on by what has come.
pub fn read_input<R: Source>(reader: &mut R, buf: &mut [u8]) -> Result<usize, ReadFailed>
    ensures received { Received result buf.old buf.new }
    ensures bytes { Consumes (R.remaining reader.old) (R.remaining reader.new) (take (read_len result) buf.new) }
    ensures end { IfOk result (λ n. n < length buf.old → IsAtEnd (R.remaining reader.new)) }
    ensures failed { OnErr result (R.failed reader.new) }
{
    let mut chunk = large_buffer();
    let mut done = 0;
    while done < buf.len() {
        let more = read_some(reader, buf, done, &mut chunk)?;
        if more == 0 {
            return Ok(done);
        }
        done += more;
    }
    Ok(done)
}

// Turns enough for 4 GiB by full reads: an input without end is answered too.
const SKIP_LIMIT: u32 = 65_536;

// Reads the rest of an input that is too long, so that whoever writes it is not cut off. What comes is
// dropped, and nothing is answered.
fn skip_rest<R: Source>(reader: &mut R) {
    let mut rest = large_buffer();
    for _ in 0..SKIP_LIMIT {
        if reader.read(&mut rest).unwrap_or(0) == 0 {
            break;
        }
    }
}

// Reads an input to its end, as far as the buffer has room for it. Where the buffer is full, what is
// left of the input is dropped.
pub fn read_to_end<R: Source>(reader: &mut R, buf: &mut [u8]) -> Result<usize, ReadFailed>
    ensures received { Received result buf.old buf.new }
    ensures bytes { IfSome (R.remaining reader.old) (λ xs. take (read_len result) buf.new ≡ take (read_len result) xs) }
    ensures whole { IfOk result (λ n. n < length buf.old → IfSome (R.remaining reader.old) (λ xs. take n buf.new ≡ xs)) }
    ensures failed { OnErr result (R.failed reader.new) }
{
    let len = read_input(reader, buf)?;
    if len == buf.len() {
        skip_rest(reader);
    }
    Ok(len)
}

// Opens a file and reads it as far as the buffer has room for it. One that cannot be opened counts as a
// read that failed. Whether it opens, and what it holds, is the world's.
pub fn read_file<S: Shelf>(files: &S, path: &str, buf: &mut [u8]) -> Result<usize, ReadFailed>
    ensures counts { IsPrefixLen (read_len result) buf.new }
    ensures long { length buf.new ≡ length buf.old }
    ensures room { 0 < length buf.old → IfErr result (λ e. e.len < length buf.old) }
    ensures kept { drop (read_len result) buf.new ≡ drop (read_len result) buf.old }
    ensures read { FileRead (S.opened files.now path.now) (S.unopened files.now path.now)
        (ReadOn S.File.remaining S.File.failed result buf.old buf.new) result }
{
    let mut file = files.open(path).map_err(|_| ReadFailed { len: 0 })?;
    read_input(&mut file, buf)
}
