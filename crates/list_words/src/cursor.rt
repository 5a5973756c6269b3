// Where a walk stands, and the walk on to the end that only judges.
ghost use Rattle.std.specs.Prelude.{◌≡◌, ◌<◌, length};
ghost use Rattle.units.specs.inner.Parts.{soundness_of};
ghost use Rattle.list_words.specs.Words.{sound_walk};
ghost use Rattle.list_words.specs.inner.Surveys.{Ready, Along, Near, start_at, onward, passed, counts_of, walk_of};

use crate::{Chain, Descriptor};
use units::{Addr, Arena, Range, Refusal, Size};

// Where a walk stands: the lowest base that may come, the base that comes, the ranges and bytes met.
#[derive(Clone, Copy)]
pub struct Cursor {
    pub low: Addr,
    pub at: Addr,
    pub count: u64,
    pub bytes: Size,
}

impl Cursor {
    // Before the first range.
    pub fn start(arena: Arena, head: Addr) -> Cursor
        ensures { result ≡ start_at arena head }
    {
        Cursor {
            low: arena.base,
            at: head,
            count: 0,
            bytes: Size::new(0),
        }
    }

    // One range further on.
    pub fn on(self, end: Addr, next: Addr) -> Cursor
        requires { Near self end.0 }
        ensures { result ≡ onward self end.0 next }
    {
        Cursor {
            low: end.after(),
            at: next,
            count: self.count + 1,
            bytes: self.bytes.plus(self.at.size_to(end)),
        }
    }

    // The range met last, by its base; none where that is 0. It ends at the address before the lowest base that may come.
    pub(crate) fn passed(self, base: Addr) -> Range
        requires { 0 < self.low.0 }
        ensures { result ≡ passed self base }
    {
        if base.is_zero() {
            return Range::none();
        }
        Range::new(base, self.low.minus(Size::new(1)))
    }

    // Whether the ranges and bytes met are those of the handle.
    pub fn counts(self, chain: Chain) -> Result<(), Refusal>
        ensures { result ≡ soundness_of (counts_of self chain) }
    {
        if chain.ranges != self.count {
            return Err(Refusal::Damaged);
        }
        if chain.bytes != self.bytes {
            return Err(Refusal::Damaged);
        }
        Ok(())
    }

    // Whether the whole list is sound, by the walk from here.
    pub(crate) fn sound_on(self, arena: Arena, words: &[u64], chain: Chain) -> Result<(), Refusal>
        requires ready { Ready arena (length words.now) }
        requires along { Along arena words.now chain.head.0 self }
        ensures { result ≡ soundness_of (sound_walk (walk_of arena words.now chain.head.0) chain.ranges chain.bytes.0) }
    {
        let mut cur = self;
        while !cur.at.is_zero() {
            let Descriptor { limit, next } = crate::range_at(arena, words, cur.low, cur.at)?;
            cur = cur.on(limit, next);
        }
        cur.counts(chain)
    }
}
