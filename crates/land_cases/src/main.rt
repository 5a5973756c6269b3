// Plays records of standard input on the list land, the block land and the pair, each with its own handle and words, and
// prints what each call returns. It assumes the contracts of std, and nothing else.
//
// A record is OP base limit align head ranges bytes filled low NWORDS w0 .. A B C. OP: 0 open, 1 insert, 2 delete, 3 find first,
// 4 find last, 5 find largest, 6 walk on a list land; 10 to 16 the same on a block land, whose head is not read, and
// is printed as 0. A find's mode is B: 0 none, 1 low, 2 high, 3 entire.
//
// A flush is OP 20: 20, the list's handle, NWORDS w0 .., then 0, the block land's handle, NNODES n0 .. with both handles in
// the form above. OP 31 to 35 are insert, delete and the finds on a pair: the same numbers, then A B C. A number that cannot
// be read ends the program. It reads 262,144 bytes at most. Where a write fails, the program ends with that error.
#![tactic(auto)]

ghost use Rattle.std.specs.Prelude.{◌≤◌, length};

mod numbers;
mod outcomes;
mod records;

use numbers::Numbers;
use std::io;
use std::io::Read;

// Reads until the buffer is full, the input ends or a read fails, and answers the bytes that were read.
fn read_full<'a, R: Read>(from: &mut R, space: &'a mut [u8]) -> &'a [u8]
    ensures { length result.now ≤ length space.old }
{
    let mut done: usize = 0;
    while done < space.len() {
        match from.read(&mut space[done..]) {
            Ok(0) | Err(_) => break,
            Ok(n) => done += n,
        }
    }
    &space[..done]
}

// The records of a text, of which there are fewer than bytes.
fn play_all<R: Print>(rt: &R, text: &[u8]) -> io::Result<()> {
    let mut numbers = Numbers::new(text);
    for _ in 0..text.len() {
        let (mut words, mut nodes) = ([0u64; 64], [0u64; 64]);
        let Some(record) = numbers.record(&mut words, &mut nodes) else {
            break;
        };
        record.play(rt)?;
    }
    Ok(())
}

fn main(rt: HostRuntime) -> io::Result<()> {
    let mut space = [0u8; 262144];
    play_all(&rt, read_full(&mut rt.stdin(), &mut space))
}
