// A whole system, between a value of type System and the image in which it is kept.
#![tactic(auto)]

ghost use Rattle.std.specs.Prelude.{◌≡◌, eqb, length};
ghost use Rattle.view.specs.Logic.{pick};
ghost use Rattle.system.specs.Fresh.{fresh_system};
ghost use Rattle.image.specs.Image.{image_width, channel_bytes, process_bytes, encoded, channel_in, process_in, decoded};

use channel::Channel;
use image::{
    CHANNEL, CHANNELS, HISTORY, IMAGE, LENGTH, MESSAGE, PROCESS, PROCESSES, RECORD, RECORDS, TRUST,
    message_bytes, message_of, pending_bytes, pending_of, variables_bytes, variables_of,
};
use std::array;
use system::{History, Process, System};

// ---- from an image to the system: each function reads the bytes of one part

fn read_channel(bytes: &[u8; CHANNEL]) -> Channel
    ensures { result ≡ channel_in bytes.now }
{
    // Most channels are nothing but zeros, as in a fresh system.
    if *bytes == [0; CHANNEL] {
        return Channel::empty();
    }
    let (slots, _) = bytes[..LENGTH].as_chunks();
    Channel {
        slots: array::from_fn(|i| message_of(slots[i])),
        len: bytes[LENGTH],
    }
}

fn read_process(bytes: &[u8; PROCESS]) -> Process
    ensures { result ≡ process_in bytes.now }
{
    let (records, _) = bytes[RECORDS..HISTORY].as_chunks();
    Process {
        variables: variables_of(*bytes.first_chunk().unwrap()),
        pending: array::from_fn(|i| pending_of(records[i])),
        history: History {
            entries: *bytes[HISTORY..].first_chunk().unwrap(),
        },
    }
}

// The system that an image holds; of bytes of another length, the fresh system of no process.
pub fn decode(image: &[u8]) -> System
    ensures { result ≡ pick (eqb (length image.now) image_width) (decoded image.now) (fresh_system 0) }
{
    if image.len() != IMAGE {
        return system::fresh(0).unwrap_or_else(|refused| refused.system);
    }
    let (process_rows, _) = image[PROCESSES..CHANNELS].as_chunks();
    let (channel_rows, _) = image[CHANNELS..TRUST].as_chunks();
    // A loop: with `from_fn` here each channel is copied once more, and a fresh system takes a tenth
    // more steps.
    let mut channels = [Channel::empty(); 64];
    for (i, channel) in channels.iter_mut().enumerate() {
        *channel = read_channel(&channel_rows[i]);
    }
    System {
        n: image[0],
        processes: array::from_fn(|i| read_process(&process_rows[i])),
        channels,
        trust: *image[TRUST..].first_chunk().unwrap(),
    }
}

// ---- from a system to its image: each function gives the bytes of one part. By loops: with `from_fn`
// encoding takes an eighth more steps.

fn channel_bytes(c: Channel) -> [u8; CHANNEL]
    ensures { result ≡ channel_bytes c }
{
    let mut slots = [[0; MESSAGE]; 8];
    for (i, message) in c.slots.iter().enumerate() {
        slots[i] = message_bytes(*message);
    }
    let mut bytes = [0; CHANNEL];
    bytes[..LENGTH].copy_from_slice(slots.as_flattened());
    bytes[LENGTH] = c.len;
    bytes
}

fn process_bytes(p: Process) -> [u8; PROCESS]
    ensures { result ≡ process_bytes p }
{
    let mut records = [[0; RECORD]; 8];
    for (i, proposal) in p.pending.iter().enumerate() {
        records[i] = pending_bytes(*proposal);
    }
    let mut bytes = [0; PROCESS];
    bytes[..RECORDS].copy_from_slice(&variables_bytes(p.variables));
    bytes[RECORDS..HISTORY].copy_from_slice(records.as_flattened());
    bytes[HISTORY..].copy_from_slice(&p.history.entries);
    bytes
}

// The image of a system; bytes of another length stay as they are. Never inlined: with this in a caller's loop clang had not ended
// after a quarter of an hour (program `by_value`).
#[inline(never)]
pub fn encode(s: System, image: &mut [u8])
    ensures { image.new ≡ pick (eqb (length image.old) image_width) (encoded s) image.old }
{
    if image.len() == IMAGE {
        let mut processes = [[0; PROCESS]; 8];
        for (i, process) in s.processes.iter().enumerate() {
            processes[i] = process_bytes(*process);
        }
        let mut channels = [[0; CHANNEL]; 64];
        for (k, channel) in s.channels.iter().enumerate() {
            channels[k] = channel_bytes(*channel);
        }
        image[0] = s.n;
        image[PROCESSES..CHANNELS].copy_from_slice(processes.as_flattened());
        image[CHANNELS..TRUST].copy_from_slice(channels.as_flattened());
        image[TRUST..].copy_from_slice(&s.trust);
    }
}
