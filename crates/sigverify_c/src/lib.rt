//! `sigverify_c`: the replies of the commands, and the explained ones, as a static library for C.
//!
//! An export takes references: what C passes for one is a pointer, after that of a slice its length, and nothing for
//! the allocator, which is the C program's own. [`answer`] is the library; an export calls it and says its clauses
//! again. No call keeps anything, so that calls of several threads do not meet.
//!
//! `adapters/c/sigverify.h` declares the exports, and says what a caller owes.
#![tactic(auto)]

ghost use Rattle.std.specs.Prelude.{◌≡◌, ◌⊎◌, ◌<◌, ◌≤◌, ◌↔◌};
ghost use Rattle.sig_program.specs.Status.{memory_status, usage_status};
ghost use Rattle.sigverify_c.specs.Answer.{IsAnswered, IsTooLong, room_status};
ghost use Rattle.sigverify_c.specs.Number.{IsNumber};

mod answer;
mod numbered;

use std::alloc::Global;

/// Writes the reply of the command of this number to a request, or its explained reply, and returns its status.
///
/// - 0, 1, 2: the status of the reply, whose bytes are the first of `reply`; `written` is how many they are.
/// - 64: no command has the number, and no explanation. No memory was taken, and `written` is 0.
/// - 71: out of memory; `written` is 0.
/// - 75: the reply has more bytes than `reply` has room for, and `written` is how many.
///
/// Beyond the bytes of the reply, `reply` is as it was; so is all of it after 64, 71 and 75.
#[unsafe(no_mangle)]
pub extern "C" fn sigverify_reply(
    alloc: Global,
    command: u32,
    request: &[u8],
    reply: &mut [u8],
    written: &mut usize,
) -> u8
    ensures status { (result < 3) ⊎ (result ≡ usage_status) ⊎ (result ≡ memory_status) ⊎ (result ≡ room_status) }
    ensures answered { result < 3 → IsAnswered command request.now reply.old reply.new written.new result }
    ensures unwritten { 3 ≤ result → reply.new ≡ reply.old }
    ensures room { result ≡ room_status → IsTooLong command request.now reply.old written.new }
    ensures usage { (result ≡ usage_status) ↔ ¬ IsNumber command }
    ensures nothing { (result ≡ usage_status) ⊎ (result ≡ memory_status) → written.new ≡ 0 }
{
    answer::answer(alloc, command, request, reply, written)
}

/// The version of this library, 0.1.0: 2^16 times the first number, and 2^8 times the second, and the third.
#[unsafe(no_mangle)]
pub extern "C" fn sigverify_version() -> u32
    ensures { result ≡ 256 }
{
    256
}
