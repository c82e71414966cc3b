//! `demo`: the command `log` at work, on a request that needs no input.
ghost use Rattle.std.specs.Prelude.{◌≡◌, ◌≤◌, ◌++◌, IfOk, List, Ok, Some, codes, decimal, ℕ};
ghost use Rattle.std.specs.List.{AllByRecursion};
ghost use Rattle.sig_demo.specs.Log.{demo_log};
ghost use Rattle.sig_demo.specs.Request.{request_of, request_tree};
ghost use Rattle.sig_json.specs.Document.{document_of};
ghost use Rattle.sig_rekor.specs.NoteText.{newline};
ghost use Rattle.sig_request.specs.Request.{log_request};
ghost use Rattle.sig_program.specs.Demo.{IsDemoLogged, IsLine, demo_reply};
ghost use Rattle.sig_program.specs.Link.{EveryLinkHolds, HoldsOfLog, log_links};
ghost use Rattle.sig_program.specs.declared.command.Command.TheVariants.{Log};

use crate::log::log_reply;
use sig_base::{Bytes, OutOfMemory, Text};
use sig_demo::DemoLog;
use sig_reply::Reply;
use std::alloc::Global;

/// Returns the request of `log` for the middle entry of a generated log of `count` entries, from 1 to 4096. Its entries
/// are `L123456`, `L123457` and so on, and its log is `demo`, whose signature is accepted as genuine. Every link of
/// `log` holds of it. Fails only if out of memory.
pub fn demo_request(alloc: Global, count: u64) -> Result<Bytes, OutOfMemory>
    requires some { 1 ≤ count }
    requires most { count ≤ 4096 }
    // The document is the object of the definition, and its members mean the request of the definition.
    ensures document { IfOk result (λ text. document_of text ≡ Ok (request_tree (demo_log count))) }
    ensures members { IfOk result (λ _.
        log_request (request_tree (demo_log count)) ≡ Some (request_of (demo_log count))) }
    ensures links { IfOk result (λ _. AllByRecursion (HoldsOfLog (request_of (demo_log count))) log_links) }
    ensures holds { IfOk result (EveryLinkHolds Log) }
{
    let log = DemoLog::new(alloc, count)?;
    let request = log.request(alloc);
    drop(log);
    request
}

/// Returns the three lines of `demo`, with status 0: `entries N`, `root HEX`, and the first line of the reply of `log`
/// to the request of `demo_request`, `logged I N`. Fails only if out of memory.
pub fn demo(alloc: Global, count: u64) -> Result<Reply, OutOfMemory>
    requires some { 1 ≤ count }
    requires most { count ≤ 4096 }
    ensures { IfOk result (λ reply. reply ≡ demo_reply count) }
{
    let log = DemoLog::new(alloc, count)?;
    let reply = reply_over(alloc, count, &log);
    drop(log);
    reply
}

/// Returns the lines over the log of `count` entries. Fails only if out of memory.
fn reply_over(alloc: Global, count: u64, log: &DemoLog) -> Result<Reply, OutOfMemory>
    requires some { 1 ≤ count }
    requires most { count ≤ 4096 }
    requires log { log.now ≡ demo_log count }
    ensures { IfOk result (λ reply. reply ≡ demo_reply count) }
{
    let root = hex::encode(alloc, log.root.as_slice())?;
    let logged = logged_reply(alloc, count, log)?;
    let line = first_line(logged.text.as_str());
    let text = lines(alloc, count, root.as_str(), line)?;
    Ok(Reply {
        status: logged.status,
        text,
    })
}

/// Returns the reply of `log` to the request over the log of `count` entries. Fails only if out of memory.
fn logged_reply(alloc: Global, count: u64, log: &DemoLog) -> Result<Reply, OutOfMemory>
    requires some { 1 ≤ count }
    requires most { count ≤ 4096 }
    requires log { log.now ≡ demo_log count }
    ensures { IfOk result (IsDemoLogged count) }
{
    let request = log.request(alloc)?;
    log_reply(alloc, request.as_slice())
}

/// The first line of a text, without its end.
fn first_line(text: &str) -> &str
    ensures { (line rest : List ℕ) → IsLine line → text.now ≡ line ++ (newline ++ rest) → result.now ≡ line }
{
    match text.split_once('\n') {
        Some((line, _)) => line,
        None => text,
    }
}

/// The lines with this root and this last line. Fails only if out of memory.
fn lines(alloc: Global, count: u64, root: &str, line: &str) -> Result<Text, OutOfMemory>
    ensures { IfOk result (λ text. text ≡ codes "entries " ++ (decimal count ++ (codes "\nroot " ++ (root.now ++
        (codes "\n" ++ (line.now ++ codes "\n")))))) }
{
    let text = format!(in alloc; "entries {count}\nroot {root}\n{line}\n")?;
    Ok(Text::from(text))
}
