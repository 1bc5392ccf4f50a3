// The image of a system: the bytes in which it is kept. Each function reads or replaces one part, and
// promises what that is at the system that the bytes hold. All are total: where the bytes have another
// length, or there is no part of that number, a blank is read and nothing is changed. An image is a slice, and no array or struct
// with methods: C lends bytes of any length, and each step takes them as they come.
#![tactic(auto)]

ghost use Rattle.std.specs.Prelude.{◌≡◌, [], ◌∷◌, ◌+◌, ◌≤◌, length, take, drop, replicate, IfSome, option_map};
ghost use Rattle.view.specs.Logic.{pick, at, put};
ghost use Rattle.channel.specs.Channel.{empty_channel, blank, front, pushed, popped};
ghost use Rattle.system.specs.Process.{entry_at, with_entry, pending_at, with_pending, with_variables, with_history};
ghost use Rattle.system.specs.System.{process_at, variables_at, with_process, channel_number, channel_at, with_channel, trust_at, with_trust};
ghost use Rattle.image.specs.Image.{variables_bytes, message_bytes, pending_bytes, variables_in, slot_in, record_in, system_in, Becomes};
ghost use Rattle.image.specs.Image.{message_width, length_place, channel_width, record_width, process_width, image_width};
ghost use Rattle.image.specs.Places.{process_row, record_row, entry_row, channel_row, slot_row, trust_row, bytes_read, with_bytes};

use channel::Message;
use system::{Proposal, Variables};
use view::{GroupIndex, ProcessId, place};

// How many bytes each part has, and where it begins in the part that holds it.
pub const MESSAGE: usize = 3;

pub const LENGTH: usize = 8 * MESSAGE;

pub const CHANNEL: usize = LENGTH + 1;

pub const RECORD: usize = 3;

pub const VARIABLES: usize = 6;

pub const RECORDS: usize = VARIABLES;

pub const HISTORY: usize = RECORDS + 8 * RECORD;

pub const PROCESS: usize = HISTORY + 32;

pub const PROCESSES: usize = 1;

pub const CHANNELS: usize = PROCESSES + 8 * PROCESS;

pub const TRUST: usize = CHANNELS + 64 * CHANNEL;

pub const IMAGE: usize = TRUST + 8;

// The bytes of an image, each 0.
pub fn blank_image() -> [u8; IMAGE]
    ensures long { length result ≡ image_width }
    ensures blank { result ≡ replicate image_width 0 }
{
    [0; IMAGE]
}

// ---- bytes

// The N bytes from a place on; zeros where there is none.
fn read<const N: usize>(image: &[u8], at: Option<usize>) -> [u8; N]
    requires { IfSome at (λ r. r + N ≤ length image.now) }
    ensures { result ≡ bytes_read N image.now at }
{
    match at {
        Some(at) => *image[at..].first_chunk().unwrap(),
        None => [0; N],
    }
}

// N bytes are written from a place on, if there is one.
fn write<const N: usize>(image: &mut [u8], at: Option<usize>, bytes: [u8; N])
    requires { IfSome at (λ r. r + N ≤ length image.old) }
    ensures { image.new ≡ with_bytes image.old at bytes.entry }
{
    if let Some(at) = at {
        image[at..at + N].copy_from_slice(&bytes);
    }
}

// ---- where each part begins, if the bytes are an image and there is such a part

#[tactic(auto, unfolding(crate::specs::Places::process_row, crate::specs::Places::row_after, crate::specs::Places::image_start, view::specs::Logic::pick))]
fn process_place(image: &[u8], p: ProcessId) -> Option<usize>
    ensures place { result ≡ process_row image.now p.0 }
    ensures within { IfSome result (λ r. r + process_width ≤ length image.now) }
{
    if image.len() != IMAGE {
        return None;
    }
    Some(PROCESSES + PROCESS * place(8, p.0)?)
}

// What process p has recorded from process q.
#[tactic(auto, unfolding(crate::specs::Places::record_row, crate::specs::Places::row_after))]
fn record_place(image: &[u8], p: ProcessId, q: ProcessId) -> Option<usize>
    ensures place { result ≡ record_row image.now p.0 q.0 }
    ensures within { IfSome result (λ r. r + record_width ≤ length image.now) }
{
    let process = process_place(image, p)?;
    Some(process + RECORDS + RECORD * place(8, q.0)?)
}

// The entry of process p at index i.
#[tactic(auto, unfolding(crate::specs::Places::entry_row, crate::specs::Places::row_after))]
fn entry_place(image: &[u8], p: ProcessId, i: GroupIndex) -> Option<usize>
    ensures place { result ≡ entry_row image.now p.0 i.0 }
    ensures within { IfSome result (λ r. r + 1 ≤ length image.now) }
{
    let process = process_place(image, p)?;
    Some(process + HISTORY + place(32, i.0)?)
}

// The channel from process q to process p.
#[tactic(auto, using(system::proofs::Laws::no_sender, system::proofs::Laws::no_receiver, system::proofs::Laws::sender_and_receiver), unfolding(crate::specs::Places::channel_row, crate::specs::Places::row_after, crate::specs::Places::image_start, view::specs::Logic::pick))]
fn channel_place(image: &[u8], q: ProcessId, p: ProcessId) -> Option<usize>
    ensures place { result ≡ channel_row image.now q.0 p.0 }
    ensures within { IfSome result (λ r. r + channel_width ≤ length image.now) }
{
    if image.len() != IMAGE {
        return None;
    }
    let from = place(8, q.0)?;
    let to = place(8, p.0)?;
    Some(CHANNELS + CHANNEL * (8 * from + to))
}

// Its slot k, counted from 1.
#[tactic(auto, unfolding(crate::specs::Places::slot_row, crate::specs::Places::row_after))]
fn slot_place(image: &[u8], q: ProcessId, p: ProcessId, k: u8) -> Option<usize>
    ensures place { result ≡ slot_row image.now q.0 p.0 k }
    ensures within { IfSome result (λ r. r + message_width ≤ length image.now) }
{
    let channel = channel_place(image, q, p)?;
    Some(channel + MESSAGE * place(8, k)?)
}

// Its length.
fn length_place(image: &[u8], q: ProcessId, p: ProcessId) -> Option<usize>
    ensures place { result ≡ option_map (λ r. r + length_place) (channel_row image.now q.0 p.0) }
    ensures within { IfSome result (λ r. r + 1 ≤ length image.now) }
{
    Some(channel_place(image, q, p)? + LENGTH)
}

// The set of those that process p may trust again.
#[tactic(auto, unfolding(crate::specs::Places::trust_row, crate::specs::Places::row_after, crate::specs::Places::image_start, view::specs::Logic::pick))]
fn trust_place(image: &[u8], p: ProcessId) -> Option<usize>
    ensures place { result ≡ trust_row image.now p.0 }
    ensures within { IfSome result (λ r. r + 1 ≤ length image.now) }
{
    if image.len() != IMAGE {
        return None;
    }
    Some(TRUST + place(8, p.0)?)
}

// ---- the parts and their bytes
// By functions of their names: crate image declares none of the types, so no `From` may stand here, and the crates
// that declare them know nothing of an image.

#[tactic(auto, unfolding(crate::specs::Image::variables_in, crate::specs::Image::variables_of, view::specs::Logic::pick))]
pub fn variables_of(bytes: [u8; VARIABLES]) -> Variables
    ensures { result ≡ variables_in bytes }
{
    let [tag, view, next, propout, proposal, acks] = bytes;
    Variables {
        crashed: tag == 1,
        view,
        next: GroupIndex(if tag <= 1 { next } else { 0 }),
        propout: GroupIndex(propout),
        proposal,
        acks,
    }
}

#[tactic(auto, unfolding(crate::specs::Image::variables_bytes, view::specs::Logic::pick))]
pub fn variables_bytes(x: Variables) -> [u8; VARIABLES]
    ensures { result ≡ variables_bytes x }
{
    [
        u8::from(x.crashed),
        x.view,
        x.next.0,
        x.propout.0,
        x.proposal,
        x.acks,
    ]
}

#[tactic(auto, unfolding(crate::specs::Image::record_in, crate::specs::Image::pending_of, view::specs::Logic::pick))]
pub fn pending_of(bytes: [u8; RECORD]) -> Option<Proposal>
    ensures { result ≡ record_in bytes }
{
    let [tag, view, index] = bytes;
    match tag {
        0 => None,
        1 => Some(Proposal {
            view,
            index: GroupIndex(index),
        }),
        _ => Some(Proposal {
            view: 0,
            index: GroupIndex(0),
        }),
    }
}

#[tactic(auto, unfolding(crate::specs::Image::pending_bytes))]
pub fn pending_bytes(x: Option<Proposal>) -> [u8; RECORD]
    ensures { result ≡ pending_bytes x }
{
    match x {
        None => [0, 0, 0],
        Some(proposal) => [1, proposal.view, proposal.index.0],
    }
}

#[tactic(auto, unfolding(crate::specs::Image::slot_in, crate::specs::Image::message_of, view::specs::Logic::pick))]
pub fn message_of(bytes: [u8; MESSAGE]) -> Message
    ensures { result ≡ slot_in bytes }
{
    let [tag, x, y] = bytes;
    match tag {
        0 => Message::Propose(x, GroupIndex(y)),
        1 => Message::Retry(GroupIndex(x), GroupIndex(y)),
        2 => Message::Acc(GroupIndex(x)),
        3 => Message::Commit(x, GroupIndex(y)),
        _ => Message::Acc(GroupIndex(0)),
    }
}

#[tactic(auto, unfolding(crate::specs::Image::message_bytes))]
pub fn message_bytes(m: Message) -> [u8; MESSAGE]
    ensures { result ≡ message_bytes m }
{
    match m {
        Message::Propose(view, i) => [0, view, i.0],
        Message::Retry(old, new) => [1, old.0, new.0],
        Message::Acc(i) => [2, i.0, 0],
        Message::Commit(view, i) => [3, view, i.0],
    }
}

// ---- what the image holds

// How many processes there are.
#[tactic(auto, unfolding(crate::specs::Image::system_in, crate::specs::Image::decoded, crate::specs::Image::no_system, view::specs::Logic::pick))]
pub fn size(image: &[u8]) -> u8
    ensures { result ≡ (system_in image.now).n }
{
    if image.len() == IMAGE { image[0] } else { 0 }
}

#[tactic(auto, using(crate::proofs::Parts::variables_read))]
pub fn variables_at(image: &[u8], p: ProcessId) -> Variables
    ensures { result ≡ variables_at (system_in image.now) p.0 }
{
    variables_of(read(image, process_place(image, p)))
}

pub fn put_variables(image: &mut [u8], p: ProcessId, x: Variables)
    ensures { Becomes (with_process (system_in image.old) p.0 (with_variables (process_at (system_in image.old) p.0) x)) image.old image.new }
{
    let at = process_place(image, p);
    write(image, at, variables_bytes(x));
}

// What process p has recorded from process q.
#[tactic(auto, using(crate::proofs::Parts::pending_read), unfolding(crate::specs::Places::record_row, crate::specs::Places::row_after))]
pub fn pending_at(image: &[u8], p: ProcessId, q: ProcessId) -> Option<Proposal>
    ensures { result ≡ pending_at (process_at (system_in image.now) p.0) q.0 }
{
    pending_of(read(image, record_place(image, p, q)))
}

pub fn put_pending(image: &mut [u8], p: ProcessId, q: ProcessId, x: Option<Proposal>)
    ensures { Becomes (with_process (system_in image.old) p.0 (with_pending (process_at (system_in image.old) p.0) q.0 x)) image.old image.new }
{
    let at = record_place(image, p, q);
    write(image, at, pending_bytes(x));
}

// The entry of process p at index i; the empty view where there is no such index.
#[tactic(auto, using(crate::proofs::Parts::entry_read), unfolding(crate::specs::Places::entry_row, crate::specs::Places::row_after))]
pub fn entry_at(image: &[u8], p: ProcessId, i: GroupIndex) -> u8
    ensures { result ≡ entry_at (process_at (system_in image.now) p.0).history i.0 }
{
    read::<1>(image, entry_place(image, p, i))[0]
}

pub fn put_entry(image: &mut [u8], p: ProcessId, i: GroupIndex, view: u8)
    ensures { Becomes (with_process (system_in image.old) p.0 (with_history (process_at (system_in image.old) p.0) (with_entry (process_at (system_in image.old) p.0).history i.0 view))) image.old image.new }
{
    let at = entry_place(image, p, i);
    write(image, at, [view]);
}

// How many messages wait on the channel from process q to process p.
#[tactic(auto, using(crate::proofs::Parts::length_read))]
pub fn length_at(image: &[u8], q: ProcessId, p: ProcessId) -> u8
    ensures { result ≡ (channel_at (system_in image.now) q.0 p.0).len }
{
    read::<1>(image, length_place(image, q, p))[0]
}

// What stands in slot k of that channel, counted from 1.
#[tactic(auto, using(crate::proofs::Parts::message_read))]
pub fn message_at(image: &[u8], q: ProcessId, p: ProcessId, k: u8) -> Message
    ensures { result ≡ at (channel_at (system_in image.now) q.0 p.0).slots k blank }
{
    message_of(read(image, slot_place(image, q, p, k)))
}

// The oldest message of that channel.
pub fn front_at(image: &[u8], q: ProcessId, p: ProcessId) -> Option<Message>
    ensures { result ≡ front (channel_at (system_in image.now) q.0 p.0) }
{
    if 0 < length_at(image, q, p) {
        Some(message_at(image, q, p, 1))
    } else {
        None
    }
}

// One message more at the end of that channel, where there is room.
pub fn push(image: &mut [u8], q: ProcessId, p: ProcessId, m: Message)
    ensures { Becomes (with_channel (system_in image.old) q.0 p.0 (pushed (channel_at (system_in image.old) q.0 p.0) m)) image.old image.new }
{
    if let Some(at) = channel_place(image, q, p) {
        let len = image[at + LENGTH];
        if len < 8 {
            image[at + LENGTH] = len + 1;
            let slot = at + MESSAGE * len as usize;
            write(image, Some(slot), message_bytes(m));
        }
    }
}

// The oldest message comes off that channel: the others move up, and the last slot stays as it was.
pub fn pop(image: &mut [u8], q: ProcessId, p: ProcessId)
    ensures { Becomes (with_channel (system_in image.old) q.0 p.0 (popped (channel_at (system_in image.old) q.0 p.0))) image.old image.new }
{
    if let Some(at) = channel_place(image, q, p) {
        let len = image[at + LENGTH];
        if 0 < len {
            image.copy_within(at + MESSAGE..at + LENGTH, at);
            image[at + LENGTH] = len - 1;
        }
    }
}

// That channel is emptied.
pub fn clear(image: &mut [u8], q: ProcessId, p: ProcessId)
    ensures { Becomes (with_channel (system_in image.old) q.0 p.0 empty_channel) image.old image.new }
{
    let at = channel_place(image, q, p);
    write(image, at, [0; CHANNEL]);
}

// The processes that process p may trust again.
#[tactic(auto, using(crate::proofs::Parts::trust_read))]
pub fn trust_at(image: &[u8], p: ProcessId) -> u8
    ensures { result ≡ trust_at (system_in image.now) p.0 }
{
    read::<1>(image, trust_place(image, p))[0]
}

pub fn put_trust(image: &mut [u8], p: ProcessId, set: u8)
    ensures { Becomes (with_trust (system_in image.old) (put (system_in image.old).trust p.0 set)) image.old image.new }
{
    let at = trust_place(image, p);
    write(image, at, [set]);
}
