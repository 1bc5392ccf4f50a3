// Messages, and channels of at most eight of them, first in, first out. Document 01 calls a channel a
// line. What is done to channels is done where they are kept, in an image (crate image).
#![tactic(auto)]

ghost use Rattle.std.specs.Prelude.{◌≡◌};
ghost use Rattle.channel.specs.Channel.{empty_channel};

use view::GroupIndex;

// Figure 3's four kinds of message, with a view and an index as it writes them: as one struct the two would be taken apart at
// each match.
#[derive(Clone, Copy, PartialEq, Eq)]
pub enum Message {
    Propose(u8, GroupIndex),
    Retry(GroupIndex, GroupIndex),
    Acc(GroupIndex),
    Commit(u8, GroupIndex),
}

// The first len slots hold the messages that wait, oldest first. A length beside the slots, since a damaged channel may say any.
#[derive(Clone, Copy)]
pub struct Channel {
    pub slots: [Message; 8],
    pub len: u8,
}

impl Channel {
    pub fn empty() -> Channel
        ensures { result ≡ empty_channel }
    {
        Channel {
            slots: [Message::Propose(0, GroupIndex(0)); 8],
            len: 0,
        }
    }
}
