// Is the system that an image holds sound? Tested where it stands, for every list of bytes.
// Loops, and not `all`, which stops at the first that fails: with it the test takes two fifths more steps.
#![tactic(auto)]

ghost use Rattle.std.specs.Prelude.{◌&&◌, ◌≡◌};
ghost use Rattle.system.specs.System.{process_at, variables_at, channel_at};
ghost use Rattle.sound.specs.Sound.{sound_channel, sound_history, sound_process, sound_process_at, sound_channels_from, sound_processes, sound_system};
ghost use Rattle.image.specs.Image.{system_in};

use image::{entry_at, length_at, message_at, pending_at, size, variables_at};
use sound::{sound_message, sound_pending, sound_variables};
use view::{GroupIndex, ProcessId, within};

// The channel from process q to process p of n, which has crashed or not.
fn sound_channel(image: &[u8], n: u8, crashed: bool, q: ProcessId, p: ProcessId) -> bool
    ensures { result ≡ sound_channel n crashed q.0 p.0 (channel_at (system_in image.now) q.0 p.0) }
{
    let len = length_at(image, q, p);
    if len > 8 {
        return false;
    }
    let mut ok = !crashed | (len == 0);
    for i in 1..=len {
        ok &= sound_message(n, q, p, message_at(image, q, p, i));
    }
    ok
}

// The channel from process q to process p of n. Whether p has crashed is read only where messages wait.
fn sound_channel_at(image: &[u8], n: u8, q: ProcessId, p: ProcessId) -> bool
    ensures { result ≡ sound_channel n (variables_at (system_in image.now) p.0).crashed q.0 p.0 (channel_at (system_in image.now) q.0 p.0) }
{
    length_at(image, q, p) == 0 || sound_channel(image, n, variables_at(image, p).crashed, q, p)
}

// The history of process p.
fn sound_history(image: &[u8], n: u8, p: ProcessId) -> bool
    ensures { result ≡ sound_history n (process_at (system_in image.now) p.0).history }
{
    let mut ok = true;
    for i in 1..=32 {
        ok &= within(n, entry_at(image, p, GroupIndex(i)));
    }
    ok & (entry_at(image, p, GroupIndex(1)) != 0)
}

// Process p of n.
fn sound_process(image: &[u8], n: u8, p: ProcessId) -> bool
    ensures { result ≡ sound_process n p.0 (process_at (system_in image.now) p.0) }
{
    let mut ok = sound_variables(n, p, variables_at(image, p)) & sound_history(image, n, p);
    for i in 1..=n {
        ok &= sound_pending(n, ProcessId(i), p, pending_at(image, p, ProcessId(i)));
    }
    ok
}

// Process q and each channel that it sends on.
fn sound_sender(image: &[u8], q: ProcessId) -> bool
    ensures { result ≡ (sound_process_at (system_in image.now) q.0 && sound_channels_from (system_in image.now) q.0) }
{
    let n = size(image);
    let mut ok = sound_process(image, n, q);
    for i in 1..=n {
        ok &= sound_channel_at(image, n, q, ProcessId(i));
    }
    ok
}

// Document 01: "A table is sound when ..". The processes and the channels in one loop: in two it takes a twentieth more.
#[tactic(auto, unfolding(sound::specs::Sound::sound_system, sound::specs::Sound::sound_processes))]
pub fn sound(image: &[u8]) -> bool
    ensures { result ≡ sound_system (system_in image.now) }
{
    let n = size(image);
    if n < 1 || n > 8 {
        return false;
    }
    let mut ok = true;
    for i in 1..=n {
        ok &= sound_sender(image, ProcessId(i));
    }
    ok
}
