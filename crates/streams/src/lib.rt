// Reading and writing for a program, over std's readers, writers and files. A call that was interrupted, or would have to wait
// on a descriptor that does not block, is tried again; any other failure is answered as its `io::Error`.
//
// Every function here is proved safe and ending, and the crate assumes nothing of its own. Of a reader and a writer whose bytes
// are known the contracts say which bytes moved; what the system reads and writes no contract can say. A call is tried again
// 2^64 - 1 times at most, since every loop has to end.
#![tactic(auto)]

ghost use Rattle.std.specs.Prelude.{◌≤◌, ◌≡◌, length, take, IfOk, OnErr, OnOk};
ghost use Rattle.std.specs.Io.KnownBytes.{Appends, Keeps};
ghost use Rattle.streams.specs.inner.Inputs.{Holds, Took};

use std::fs::{OpenFile, OpenOptions};
use std::io::{ErrorKind, Read, Write};
use std::rt::{Env, Files};
use std::{fs, io, thread};

// Whether the call that failed so is to be tried again. Where it would have to wait, others run first.
fn is_passing(error: &io::Error) -> bool {
    match error.kind() {
        ErrorKind::WouldBlock => {
            thread::yield_now();
            true
        }
        ErrorKind::Interrupted => true,
        _ => false,
    }
}

// One read: how many bytes it brought to the start of the buffer, one at least, or `None` at the end of the input. Into a buffer
// of no bytes nothing can be read: that looks like the end of the input.
pub fn read<R: Read>(from: &mut R, buf: &mut [u8]) -> io::Result<Option<usize>>
    ensures holds { Holds result buf.new }
    ensures took { Took (R.remaining from.old) (R.remaining from.new) result buf.new }
{
    for _ in 0..u64::MAX {
        match from.read(buf) {
            Ok(0) => return Ok(None),
            Ok(n) => return Ok(Some(n)),
            Err(e) if !is_passing(&e) => return Err(e),
            Err(_) => {}
        }
    }
    Err(io::Error::from(ErrorKind::TimedOut))
}

// One write: how many of the first bytes it took.
fn write_some<W: Write>(to: &mut W, bytes: &[u8]) -> io::Result<usize>
    ensures bound { IfOk result (λ n. n ≤ length bytes.now) }
    ensures took { IfOk result (λ n. Appends (W.contents to.old) (W.contents to.new) (take n bytes.now)) }
    ensures none { OnErr result (Keeps (W.contents to.old) (W.contents to.new)) }
{
    for _ in 0..u64::MAX {
        match to.write(bytes) {
            Ok(n) => return Ok(n),
            Err(e) if !is_passing(&e) => return Err(e),
            Err(_) => {}
        }
    }
    Err(io::Error::from(ErrorKind::TimedOut))
}

// Writes all the bytes, or answers what failed. A write that takes nothing counts as one that failed.
pub fn write<W: Write>(to: &mut W, bytes: &[u8]) -> io::Result<()>
    ensures { OnOk result (Appends (W.contents to.old) (W.contents to.new) bytes.now) }
{
    let mut left = bytes;
    while !left.is_empty() {
        let n = write_some(to, left)?;
        if n == 0 {
            return Err(io::Error::from(ErrorKind::WriteZero));
        }
        left = &left[n..];
    }
    Ok(())
}

// Whether an error says only that there is nothing to ask: a file that cannot be synchronized, or one that is open for no writing.
fn is_silent(kind: ErrorKind) -> bool {
    matches!(
        kind,
        ErrorKind::InvalidInput | ErrorKind::Unsupported | ErrorKind::ReadOnlyFilesystem
    )
}

// Ends the writing to a descriptor, by its path, and answers whether all that was written is kept, as far as the system says it.
// Only a regular file may lose what it took. One that is not open has nothing to keep. The descriptor itself is closed where
// the program ends.
pub fn close<R: Files>(rt: &R, path: &str) -> io::Result<()> {
    let Ok(about) = fs::metadata(rt, path) else {
        return Ok(());
    };
    if !about.is_file() {
        return Ok(());
    }
    let Ok(file) = OpenOptions::new().write(true).open(rt, path) else {
        return Ok(());
    };
    match file.sync_data() {
        Err(e) if !is_silent(e.kind()) => Err(e),
        _ => Ok(()),
    }
}

// Says that all was done, to whoever started the program with the argument 3: a byte on descriptor 3. Without that argument
// nothing is written there.
pub fn tell_done<R: Env + Files>(rt: &R) -> io::Result<()> {
    let mut word = [0u8; 1];
    let Ok(1) = rt.arg(1, &mut word) else {
        return Ok(());
    };
    if word[0] != b'3' {
        return Ok(());
    }
    let mut sign = OpenOptions::new().write(true).open(rt, "/dev/fd/3")?;
    write(&mut sign, &word)
}

// Says on standard error what failed and why, in a line, without the number of the system's error. Where that cannot be written,
// nothing is said.
pub fn fail<R: Eprint + Alloc>(rt: &R, what: &str, error: &io::Error) {
    let Ok(text) = format!(in rt.alloc(); "{error}") else {
        let _ = eprintln!(rt; "{what}: {error}");
        return;
    };
    let _ = match text.as_str().split_once(" (os error ") {
        Some((cause, _)) => eprintln!(rt; "{what}: {cause}"),
        None => eprintln!(rt; "{what}: {text}"),
    };
}
