// The place of an address in a good table, and the entry that an aim keeps of it.
ghost use Rattle.std.specs.Prelude.{◌≡◌, ◌-◌, ◌/◌, ◌≤◌, length};
ghost use Rattle.units.specs.declared.Which.{Which};
ghost use Rattle.units.specs.declared.aims.Aim.{Aim};
ghost use Rattle.block_words.specs.Words.{pairs};
ghost use Rattle.block_words.specs.inner.Surveys.{entry_at, entry_of, Ordered, Rising, FirstReach};

use crate::Entry;
use units::{Addr, Aim, Range, Size, Which};

// The number of the first of n ranges that reaches an address, or n, by halving.
pub fn first_reach(words: &[u64], n: usize, x: Addr) -> usize
    requires { Ordered words.now n }
    ensures { FirstReach words.now n x.0 result }
{
    let mut lo: usize = 0;
    let mut hi = n;
    while lo < hi {
        let mid = (lo + hi) / 2;
        let pair = crate::pair_at(words, mid);
        if pair.limit < x {
            lo = mid + 1;
        } else {
            hi = mid;
        }
    }
    lo
}

// Range number i of n, or none.
fn entry_at(words: &[u64], n: usize, i: usize) -> Entry
    requires { n ≤ length words.now / 2 }
    ensures { result ≡ entry_at words.now n i }
{
    if i < n {
        let here = crate::pair_at(words, i);
        return Entry { number: i, here };
    }
    let here = Range::none();
    Entry { number: n, here }
}

// The first range that reaches an address.
#[tactic(auto, using(crate::proofs::Seeking::places))]
fn reached(words: &[u64], n: usize, x: Addr) -> Entry
    requires { Rising words.now n }
    ensures { result ≡ entry_of (Aim.Reach x) (pairs words.now n) }
{
    let i = first_reach(words, n, x);
    entry_at(words, n, i)
}

// The first range that begins at or above an address: the first that reaches it, or the one behind that.
fn above(words: &[u64], n: usize, x: Addr) -> Entry
    requires { Rising words.now n }
    ensures { result ≡ entry_of (Aim.From x) (pairs words.now n) }
{
    let i = first_reach(words, n, x);
    let first = entry_at(words, n, i);
    if first.here.base < x {
        return entry_at(words, n, i + 1);
    }
    first
}

// The first range that is long enough.
fn first(words: &[u64], n: usize, size: Size) -> Entry
    requires { Rising words.now n }
    ensures { result ≡ entry_of (Aim.Find Which.First size) (pairs words.now n) }
{
    for number in 0..n {
        let here = crate::pair_at(words, number);
        if size <= here.size() {
            return Entry { number, here };
        }
    }
    entry_at(words, n, n)
}

// The last range that is long enough: from the end down.
fn last(words: &[u64], n: usize, size: Size) -> Entry
    requires { Rising words.now n }
    ensures { result ≡ entry_of (Aim.Find Which.Last size) (pairs words.now n) }
{
    for number in (0..n).rev() {
        let range = crate::pair_at(words, number);
        if size <= range.size() {
            return Entry {
                number,
                here: range,
            };
        }
    }
    entry_at(words, n, n)
}

// The size that is one byte less, or 0.
fn less(size: Size) -> Size
    ensures { result.0 ≡ size.0 - 1 }
{
    if size.is_zero() {
        return size;
    }
    size.minus(Size::new(1))
}

// The first of the longest ranges, if it is long enough: the number of the longest so far is kept, and the size to exceed.
fn largest(words: &[u64], n: usize, size: Size) -> Entry
    requires { Rising words.now n }
    ensures { result ≡ entry_of (Aim.Find Which.Largest size) (pairs words.now n) }
{
    let mut most = less(size);
    let mut number = n;
    for i in 0..n {
        let long = crate::pair_at(words, i).size();
        if most < long {
            most = long;
            number = i;
        }
    }
    entry_at(words, n, number)
}

// The range that a find chooses.
pub fn found(words: &[u64], n: usize, which: Which, size: Size) -> Entry
    requires { Rising words.now n }
    ensures { result ≡ entry_of (Aim.Find which size) (pairs words.now n) }
{
    match which {
        Which::First => first(words, n, size),
        Which::Last => last(words, n, size),
        Which::Largest => largest(words, n, size),
    }
}

// What an aim keeps.
#[tactic(auto, using(crate::proofs::Seeking::places))]
pub fn entry(words: &[u64], n: usize, aim: Aim) -> Entry
    requires { Rising words.now n }
    ensures { result ≡ entry_of aim (pairs words.now n) }
{
    match aim {
        Aim::Nothing => entry_at(words, n, n),
        Aim::Reach(x) => reached(words, n, x),
        Aim::From(x) => above(words, n, x),
        Aim::Find(which, size) => found(words, n, which, size),
    }
}
