// What one read brought.
#![tactic(auto)]

ghost use Rattle.std.specs.Prelude.{◌≤◌};
ghost use Rattle.input.specs.declared.TheConstants.{CHUNK_ROOM};

use input::CHUNK_ROOM;

// The bytes from `at` up to `have` come next.
#[derive(Drop)]
pub struct Chunk {
    pub bytes: [u8; CHUNK_ROOM],
    pub at: usize,
    pub have: usize,
    ghost within: { have ≤ CHUNK_ROOM },
}
