// Numbers written in decimal into a lent buffer.
//
// Every function here is proved, and the crate assumes nothing of its own.
#![tactic(auto)]

ghost use Rattle.std.specs.Prelude.{◌≡◌, [], ◌∷◌, ◌++◌, ◌+◌, ◌*◌, ◌≤◌, ◌<◌, length};
ghost use Rattle.texts.specs.Decimal.{decimal, line};
ghost use Rattle.texts.specs.inner.Writing.{Wrote};

// How many digits a number has.
#[tactic(auto, using(crate::proofs::Spelling::decimal_places, crate::proofs::Spelling::one_place))]
fn places(n: u64) -> usize
    ensures { result ≡ length (decimal n) }
{
    if n < 10 {
        return 1;
    }
    n.ilog10() as usize + 1
}

// The digit d.
fn glyph(d: u64) -> u8
    requires { d < 10 }
    ensures { result ≡ 48 + d }
{
    b'0' + d as u8
}

// Writes a number at a position of a buffer and a byte behind it, and returns the position after them.
pub fn put(out: &mut [u8], at: usize, n: u64, end: u8) -> usize
    requires { at + 21 ≤ length out.old }
    ensures { Wrote 21 out.old at (decimal n ++ (end ∷ [])) out.new result }
{
    let next = at + places(n);
    let mut i = next;
    let mut rest = n;
    while 9 < rest {
        i -= 1;
        out[i] = glyph(rest % 10);
        rest /= 10;
    }
    out[at] = glyph(rest);
    out[next] = end;
    next + 1
}

// Writes a byte at a position of a buffer, and returns the position after it.
pub fn put_byte(out: &mut [u8], at: usize, b: u8) -> usize
    requires { at + 1 ≤ length out.old }
    ensures { Wrote 1 out.old at (b ∷ []) out.new result }
{
    out[at] = b;
    at + 1
}

// Writes a line of numbers at a position of a buffer, and returns the position after it. Inlined, so that each caller writes its
// own numbers without a loop.
#[inline(always)]
pub fn put_line(out: &mut [u8], at: usize, numbers: &[u64]) -> usize
    requires some { 0 < length numbers.now }
    requires room { at + 21 * length numbers.now ≤ length out.old }
    ensures { Wrote (21 * length numbers.now) out.old at (line numbers.now) out.new result }
{
    let (last, front) = numbers.split_last().unwrap();
    let mut next = at;
    for n in front {
        next = put(out, next, *n, b' ');
    }
    put(out, next, *last, b'\n')
}
