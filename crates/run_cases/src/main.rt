//! Cases of `run` over memory, whose streams give and take pieces, and fail, and of the request of `demo`. `stdin`
//! lists runs and requests, and `stdout` what comes of each.
//!
//! Their origin: `tools/run_cases.py`, a program in another language that counts reads and writes by the contract of
//! `run` alone, and `tools/demo_requests.py`, which makes the request of `demo` by RFC 6962. What is written for a
//! request that is read whole is stated there; whole requests are in `examples/`.
#![tactic(auto)]

ghost use Rattle.std.specs.Prelude.{◌≤◌};

use sig_base::{Bytes, MemorySink, MemorySource, Numbers, OutOfMemory, Source, Text, sha256};
use sig_cases::{Answer, Arguments, Cases, run};
use sig_program::demo::demo_request;
use sig_program::log::log_reply;
use sig_program::run::run as program;
use std::alloc::Global;

struct RunCases;

impl Cases for RunCases {
    fn answer(call: &str, arguments: &mut Arguments<'_>, answer: &mut Answer) {
        match call {
            "run" => ran(arguments, answer),
            "request" => requested(arguments, answer),
            _ => arguments.refuse(),
        }
    }
}

/// `run WORDS BYTES PIECE FAILING PIECE FAILING ROOM`, over a source of the bytes that gives at most a piece at a call,
/// and a sink of this room that takes at most a piece, whose calls of these numbers fail: the status, what was written,
/// and how many bytes are left. Words are divided by commas, and have percent escapes.
fn ran(arguments: &mut Arguments<'_>, answer: &mut Answer) {
    let alloc = arguments.alloc();
    let listed = arguments.text();
    let words = words(alloc, listed.as_str());
    let mut source = source(arguments);
    let sink = sink(arguments);
    match (words, sink) {
        (Ok(words), Ok(mut sink)) => {
            answer.value(&program(alloc, &words, &mut source, &mut sink));
            answer.hex(sink.taken());
            answer.value(&left(&mut source));
        }
        _ => answer.out_of_memory(),
    }
}

/// `request COUNT`: the SHA-256 and the length of the request of `demo` for COUNT entries, and the status and the
/// text of the reply of `log` to it.
fn requested(arguments: &mut Arguments<'_>, answer: &mut Answer) {
    let alloc = arguments.alloc();
    let count = arguments.natural();
    if count < 1 || 4096 < count {
        arguments.refuse();
        return;
    }
    match demo_request(alloc, count) {
        Ok(request) => {
            answer.hex(sha256(request.as_slice()).as_slice());
            answer.value(&request.as_slice().len());
            replied(alloc, request.as_slice(), answer);
        }
        Err(_) => answer.out_of_memory(),
    }
}

/// Adds the status and the text of the reply of `log` to a request.
fn replied(alloc: Global, request: &[u8], answer: &mut Answer) {
    match log_reply(alloc, request) {
        Ok(reply) => {
            answer.value(&reply.status);
            answer.hex(reply.text.as_str().as_bytes());
        }
        Err(_) => answer.out_of_memory(),
    }
}

fn words(alloc: Global, listed: &str) -> Result<Vec<Text>, OutOfMemory> {
    let mut words = Vec::new(alloc);
    for word in listed.split(',') {
        words.push(Text::copy_of(alloc, word)?)?;
    }
    Ok(words)
}

/// The source of the next arguments, `BYTES PIECE FAILING`.
fn source(arguments: &mut Arguments<'_>) -> MemorySource {
    let bytes = Bytes::from(arguments.text().into_bytes());
    let piece = piece(arguments);
    MemorySource::new(bytes, piece, failing(arguments))
}

/// The sink of the next arguments, `PIECE FAILING ROOM`.
fn sink(arguments: &mut Arguments<'_>) -> Result<MemorySink, OutOfMemory> {
    let piece = piece(arguments);
    let failing = failing(arguments);
    let room = arguments.natural() as usize;
    MemorySink::new(arguments.alloc(), room, piece, failing)
}

/// The next argument as how many bytes a call moves at most. There is at least one.
fn piece(arguments: &mut Arguments<'_>) -> usize
    ensures { 1 ≤ result }
{
    match arguments.natural() as usize {
        0 => {
            arguments.refuse();
            1
        }
        piece => piece,
    }
}

/// The next argument as the number of the only call that fails.
fn failing(arguments: &mut Arguments<'_>) -> Numbers {
    let mut failing = Numbers::new(arguments.alloc());
    let number = arguments.natural() as usize;
    if failing.push(number).is_err() {
        arguments.refuse();
    }
    failing
}

/// How many bytes are left. A call that fails is made again.
fn left(source: &mut MemorySource) -> usize {
    let mut piece = [0; 64];
    let mut left = 0_usize;
    for _ in 0..u64::MAX {
        match source.read(&mut piece) {
            Ok(0) => break,
            Ok(count) => left = left.saturating_add(count),
            Err(_) => {}
        }
    }
    left
}

fn main(rt: HostRuntime) -> anyhow::Result<()> {
    run::<RunCases>(&rt)
}
