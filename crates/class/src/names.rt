// The names of a class's sheets, one to a line. They come in chunks, and a name may be longer than a
// chunk: its first bytes are kept, as many as there is room for.
#![tactic(auto)]

ghost use Rattle.std.specs.Prelude.{◌≡◌, ◌<◌, ◌≤◌, false, true, length, take, IfOk, IfErr, IfSome, OnOk, OnErr};
ghost use Rattle.std.specs.Io.KnownBytes.{IsAtEnd, Keeps};
ghost use Rattle.std.specs.Option.{option_map};
ghost use Rattle.class.specs.Names.{Gathers, TakesName, GivesName, names_in};
ghost use Rattle.class.specs.Reading.{bytes_left, names_left};

use crate::NAME_LIMIT;
use crate::chunk::Chunk;
use input::{Failure, Source, large_buffer};
use print::Page;
use sheet::lines::next_place;

// Names past this one are not read.
const NAMES: u32 = 64;

// Every loop has to end, and no name takes so many reads.
const CHUNK_LIMIT: u64 = 1 << 63;

// Room for a name and one byte more, by which a long name shows.
pub const NAME_ROOM: usize = NAME_LIMIT + 1;

// Takes the bytes of a chunk from a place on, up to the next line feed, onto the end of a name. The
// answer is the place after the line feed, if there is one.
#[tactic(none)]
pub fn gather(chunk: &[u8], at: usize, name: &mut Page) -> Option<usize>
    ensures { Gathers chunk.now at name.old name.new result }
{
    if chunk.len() <= at {
        return None;
    }
    let next = next_place(chunk, at);
    let end = next - 1;
    name.text(&chunk[at..end]);
    (end < chunk.len()).then_some(next)
}

// The names, one to a line, as a reader gives them; `left` of them are yet to be read. The chunk's bytes
// come next, and then what the reader has left, unless its input has ended.
// By hand: std's buffered input takes its buffer from the heap, and no program here has one.
#[derive(Drop)]
pub struct Names<R> {
    reader: R,
    chunk: Chunk,
    ended: bool,
    left: u32,
}

impl<R: Source> Names<R> {
    pub fn new(reader: R) -> Names<R>
        ensures { names_left R.remaining result ≡ option_map names_in (R.remaining reader) }
    {
        Names {
            reader,
            chunk: Chunk {
                bytes: large_buffer(),
                at: 0,
                have: 0,
            },
            ended: false,
            left: NAMES,
        }
    }

    // Reads the next chunk, if the bytes of this one are used up; answers whether there are any.
    fn fill(&mut self) -> Result<bool, Failure>
        ensures kept { OnOk result (Keeps (bytes_left R.remaining self.old) (bytes_left R.remaining self.new)) }
        ensures within { self.new.chunk.have ≤ length self.new.chunk.bytes }
        ensures some { IfOk result (λ more. more ≡ true → self.new.chunk.at < self.new.chunk.have) }
        ensures none { IfOk result (λ more. more ≡ false → IsAtEnd (bytes_left R.remaining self.new)) }
        ensures left { self.new.left ≡ self.old.left }
        ensures failed { OnErr result (R.failed self.new.reader) }
    {
        if self.chunk.at < self.chunk.have {
            return Ok(true);
        }
        if self.ended {
            return Ok(false);
        }
        self.chunk.have = self
            .reader
            .read_once(&mut self.chunk.bytes)
            .map_err(|_| Failure::Unread("names"))?;
        self.chunk.at = 0;
        self.ended = self.chunk.have == 0;
        Ok(!self.ended)
    }

    // Takes the bytes up to the next line feed, or the input's end: how many of them are kept. A name
    // that takes more reads than there are turns counts as a read that failed.
    #[tactic(auto, using(print::proofs::Typing::typing))]
    fn take_name(&mut self, name: &mut [u8; NAME_ROOM]) -> Result<usize, Failure>
        ensures within { IfOk result (λ len. len ≤ length name.new) }
        ensures name { IfOk result (λ len. TakesName (bytes_left R.remaining self.old) (bytes_left R.remaining self.new) (take len name.new)) }
        ensures left { self.new.left ≡ self.old.left }
    {
        let mut len = 0;
        for _ in 0..CHUNK_LIMIT {
            if !self.fill()? {
                return Ok(len);
            }
            let mut page = Page::new(name, len);
            let chunk = &self.chunk.bytes[..self.chunk.have];
            let next = gather(chunk, self.chunk.at, &mut page);
            len = page.place();
            self.chunk.at = next.unwrap_or(self.chunk.have);
            if next.is_some() {
                return Ok(len);
            }
        }
        Err(Failure::Unread("names"))
    }

    // Takes the next name, if there is one, and none past the last that is read: how many bytes are kept
    // of it, which stand first in the buffer.
    pub fn next_name(&mut self, name: &mut [u8; NAME_ROOM]) -> Result<Option<usize>, Failure>
        ensures within { IfOk result (λ found. IfSome found (λ len. len ≤ length name.new)) }
        ensures name { IfOk result (λ found. GivesName (names_left R.remaining self.old) (names_left R.remaining self.new)
            (option_map (λ len. take len name.new) found)) }
        ensures fewer { IfOk result (λ found. IfSome found (λ _. self.new.left < self.old.left)) }
    {
        if self.left == 0 {
            return Ok(None);
        }
        if !self.fill()? {
            return Ok(None);
        }
        self.left -= 1;
        let len = self.take_name(name)?;
        Ok(Some(len))
    }
}
