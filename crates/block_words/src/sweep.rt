// The sweep over the pairs of a table: it reads every pair, whatever it is, and is judged at its end. Its loop has no other
// exit, so that the compiler takes several pairs a turn.
ghost use Rattle.std.specs.Prelude.{◌≡◌, ◌/◌, ◌<◌, ◌≤◌, length};
ghost use Rattle.units.specs.inner.Parts.{soundness_of};
ghost use Rattle.block_words.specs.inner.Tallies.{Ready, below, start_of, swept_by, verdict_of, sound_pairs};

use units::{Addr, Arena, Refusal, Size};

// What a sweep keeps of the pairs met: the limit of the last, a number whose top bit is set exactly if all words
// ascend, all words OR-ed, and their bytes. The numbers are modulo 2^64.
#[derive(Clone, Copy)]
pub struct Sweep {
    pub past: u64,
    pub rising: u64,
    pub bits: u64,
    pub bytes: u64,
}

// x - y, modulo 2^64. Of two numbers below 2^63, its top bit says whether x is below y.
fn lower(x: u64, y: u64) -> u64
    ensures { result ≡ below x y }
{
    std::num::wrapping_sub_u64(x, y)
}

impl Sweep {
    // Before the first pair, as if one had ended right below the arena.
    fn start(arena: Arena) -> Sweep
        requires { Ready arena }
        ensures { result ≡ start_of arena }
    {
        let past = arena.base.minus(Size::new(1)).number();
        Sweep {
            past,
            rising: 18446744073709551615,
            bits: 0,
            bytes: 0,
        }
    }

    // One pair further on.
    fn on(self, base: u64, limit: u64) -> Sweep
        ensures { result ≡ swept_by self base limit }
    {
        let gap = lower(self.past, base);
        let size = lower(base, limit);
        Sweep {
            past: limit,
            rising: self.rising & (gap & size),
            bits: self.bits | (base | limit),
            bytes: lower(self.bytes, size),
        }
    }

    // Whether the pairs met are good. A word with a top bit is above every arena. Limits ascend, so the last alone is compared
    // with the arena's; words OR-ed are aligned exactly if each of them is.
    fn verdict(self, arena: Arena, bytes: Size) -> Result<(), Refusal>
        requires { Ready arena }
        ensures { result ≡ soundness_of (verdict_of arena bytes self) }
    {
        if self.bits >= 9223372036854775808 {
            return Err(Refusal::Damaged);
        }
        if self.rising < 9223372036854775808 {
            return Err(Refusal::Damaged);
        }
        if arena.limit < Addr::new(self.past) {
            return Err(Refusal::Damaged);
        }
        let align = arena.align.bit();
        if !align.divides(self.bits) {
            return Err(Refusal::Damaged);
        }
        if Size::new(self.bytes) != bytes {
            return Err(Refusal::Damaged);
        }
        Ok(())
    }
}

// Whether the first n pairs are good and have so many bytes.
pub(crate) fn judge(arena: Arena, words: &[u64], n: usize, bytes: Size) -> Result<(), Refusal>
    requires ready { Ready arena }
    requires n_in_bounds { n ≤ length words.now / 2 }
    ensures { result ≡ soundness_of (sound_pairs arena words.now n bytes) }
{
    let mut sweep = Sweep::start(arena);
    for i in 0..n {
        sweep = sweep.on(words[2 * i], words[2 * i + 1]);
    }
    sweep.verdict(arena, bytes)
}
