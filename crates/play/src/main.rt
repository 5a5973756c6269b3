// Plays the requests of standard input on one list land of at most 4,096 words, and writes the answers to standard output.
//
// What is printed for which input is proved in `script`; this program reads, lends and writes. It assumes the contracts of std,
// and nothing else. Where an input cannot be read or an answer not be written, it says so in a line on standard error and ends
// with status 1; else `streams` tells whoever started it that all was written. Where the reader of its answers has gone away it
// says nothing and ends with status 141, which a shell gives for a program that is ended so by the signal.
#![tactic(auto)]

ghost use Rattle.std.specs.Prelude.{[], ◌≤◌, ◌<◌, length, take, IfOk, IfSome, OnOk};
ghost use Rattle.std.specs.Io.KnownBytes.{Appends};
ghost use Rattle.play.specs.inner.Steps.{ReadPrints, StepPrints, Still};
ghost use Rattle.script.specs.Calls.{ended};
ghost use Rattle.script.specs.Printed.{whole};

use script::Script;
use std::io;
use std::io::{ErrorKind, Read, Write};
use std::process::ExitCode;
use std::rt::Files;

// What failed, with the system's error.
#[derive(Clone, Copy, Debug)]
pub enum Fault {
    Reading(io::Error),
    Writing(io::Error),
    Closing(io::Error),
    Telling(io::Error),
}

// Writes the first n bytes of the buffer.
fn put_out<W: Write>(to: &mut W, out: &[u8], n: usize) -> Result<(), Fault>
    requires { n ≤ length out.now }
    ensures { OnOk result (Appends (W.contents to.old) (W.contents to.new) (take n out.now)) }
{
    streams::write(to, &out[..n]).map_err(Fault::Writing)
}

// Prints a description to its end.
fn describe<W: Write>(
    to: &mut W,
    start: Script,
    words: &[u64],
    out: &mut [u8],
) -> Result<Script, Fault>
    requires { 105 ≤ length out.old }
    ensures still { IfOk result Still }
    ensures prints { StepPrints (W.contents to.old) (W.contents to.new) start words.now [] result words.now }
{
    let mut script = start;
    while script.is_describing() {
        let fed = script.describe(words, out);
        put_out(to, out, fed.at)?;
        script = fed.script;
    }
    Ok(script)
}

// Plays the lines of some bytes.
fn feed<W: Write>(
    to: &mut W,
    start: Script,
    words: &mut [u64],
    out: &mut [u8],
    bytes: &[u8],
) -> Result<Script, Fault>
    requires in_bounds { 105 ≤ length out.old }
    requires still { Still start }
    ensures still { IfOk result Still }
    ensures prints { StepPrints (W.contents to.old) (W.contents to.new) start words.old bytes.now result words.new }
{
    let mut script = start;
    let mut left = bytes;
    while !left.is_empty() {
        let fed = script.feed(words, out, left);
        left = &left[fed.used..];
        put_out(to, out, fed.at)?;
        script = describe(to, fed.script, words, out)?;
    }
    Ok(script)
}

// One read of the input, and the script after it: `None` at the end.
fn read_on<R: Read, W: Write>(
    from: &mut R,
    to: &mut W,
    script: Script,
    words: &mut [u64],
    out: &mut [u8],
    space: &mut [u8],
) -> Result<Option<Script>, Fault>
    requires in_bounds { 105 ≤ length out.old }
    requires still { Still script }
    ensures still { IfOk result (λ next. IfSome next Still) }
    ensures prints { 0 < length space.old → ReadPrints (R.remaining from.old) (R.remaining from.new) (W.contents to.old) (W.contents to.new) script words.old result words.new }
{
    match streams::read(from, space).map_err(Fault::Reading)? {
        Some(n) => Ok(Some(feed(to, script, words, out, &space[..n])?)),
        None => Ok(None),
    }
}

// The end of the input.
fn finish<F: Files, W: Write>(
    rt: &F,
    to: &mut W,
    script: Script,
    out: &mut [u8],
) -> Result<(), Fault>
    ensures { OnOk result (Appends (W.contents to.old) (W.contents to.new) (ended script (length out.old))) }
{
    let n = script.end(out);
    put_out(to, out, n)?;
    streams::close(rt, "/dev/fd/1").map_err(Fault::Closing)
}

// The whole input, to the last answer. Each turn reads a byte at least: no input comes near the bound.
fn run<F: Files, R: Read, W: Write>(
    rt: &F,
    from: &mut R,
    to: &mut W,
    words: &mut [u64],
    out: &mut [u8],
    space: &mut [u8],
) -> Result<(), Fault>
    requires { 105 ≤ length out.old }
    ensures { 0 < length space.old → OnOk result (IfSome (R.remaining from.old) (λ input. Appends (W.contents to.old) (W.contents to.new) (whole words.old input))) }
{
    let mut script = Script::new();
    for _ in 0..u64::MAX {
        match read_on(from, to, script, words, out, space)? {
            Some(next) => script = next,
            None => return finish(rt, to, script, out),
        }
    }
    Err(Fault::Reading(io::Error::from(ErrorKind::TimedOut)))
}

// Whether the reader of the answers has gone away.
fn is_unread(fault: Fault) -> bool {
    matches!(fault, Fault::Writing(e) if e.kind() == ErrorKind::BrokenPipe)
}

// The line on standard error for what failed.
fn say<R: Eprint + Alloc>(rt: &R, fault: Fault) {
    let (what, error) = match fault {
        Fault::Reading(e) => ("play: answers are missing: reading standard input", e),
        Fault::Writing(e) => ("play: answers are missing: writing standard output", e),
        Fault::Closing(e) => ("play: answers are missing: closing standard output", e),
        Fault::Telling(e) => ("play: saying that all answers were written", e),
    };
    streams::fail(rt, what, &error);
}

fn main(rt: HostRuntime) -> ExitCode {
    let mut words = [0u64; 4096];
    let mut out = [0u8; 65536];
    let mut space = [0u8; 65536];
    let (mut from, mut to) = (rt.stdin(), rt.stdout());
    let played = run(&rt, &mut from, &mut to, &mut words, &mut out, &mut space);
    match played.and_then(|()| streams::tell_done(&rt).map_err(Fault::Telling)) {
        Ok(()) => ExitCode::SUCCESS,
        Err(fault) if is_unread(fault) => ExitCode::from(141),
        Err(fault) => {
            say(&rt, fault);
            ExitCode::FAILURE
        }
    }
}
