//! The reply to a request, in the room that a caller has for it.
ghost use Rattle.std.specs.Prelude.{◌≡◌, ◌⊎◌, ◌<◌, ◌≤◌, ◌↔◌, ◌++◌, IsTrue, drop, length};
ghost use Rattle.sig_program.specs.Status.{memory_status, usage_status};
ghost use Rattle.sigverify_c.specs.Answer.{IsAnswered, IsTooLong, room_status};
ghost use Rattle.sigverify_c.specs.Number.{IsNumber};

use crate::numbered::Numbered;
use sig_program::run::{NO_MEMORY, USAGE};
use std::alloc::Global;

/// The status for a reply that has more bytes than there is room for (EX_TEMPFAIL of sysexits.h: it can be asked for
/// again).
pub const NO_ROOM: u8 = 75;

/// Writes the reply of the command of this number to a request, or its explained reply, and returns its status; with
/// `written` the number of its bytes, also where they do not fit.
#[tactic(auto, using(crate::proofs::Answers::answers))]
pub fn answer(
    alloc: Global,
    number: u32,
    request: &[u8],
    room: &mut [u8],
    written: &mut usize,
) -> u8
    ensures status { (result < 3) ⊎ (result ≡ usage_status) ⊎ (result ≡ memory_status) ⊎ (result ≡ room_status) }
    ensures answered { result < 3 → IsAnswered number request.now room.old room.new written.new result }
    ensures unwritten { 3 ≤ result → room.new ≡ room.old }
    ensures room { result ≡ room_status → IsTooLong number request.now room.old written.new }
    ensures usage { (result ≡ usage_status) ↔ ¬ IsNumber number }
    ensures nothing { (result ≡ usage_status) ⊎ (result ≡ memory_status) → written.new ≡ 0 }
{
    *written = 0;
    let Some(command) = Numbered::of(number) else {
        return USAGE;
    };
    match command.reply(alloc, request) {
        Ok(reply) => {
            let text = reply.text.as_str().as_bytes();
            *written = text.len();
            let status = if put(text, room) {
                reply.status
            } else {
                NO_ROOM
            };
            drop(reply);
            status
        }
        Err(_) => NO_MEMORY,
    }
}

/// Puts the bytes at the beginning of the room, if they fit, and leaves the rest of it, and all where they do not. Returns
/// whether they fit.
fn put(bytes: &[u8], room: &mut [u8]) -> bool
    ensures fits { IsTrue result ↔ length bytes.now ≤ length room.old }
    ensures put { IsTrue result → room.new ≡ bytes.now ++ drop (length bytes.now) room.old }
    ensures unchanged { ¬ IsTrue result → room.new ≡ room.old }
{
    if room.len() < bytes.len() {
        return false;
    }
    let (front, _) = room.split_at_mut(bytes.len());
    front.copy_from_slice(bytes);
    true
}
