// The list land: a set of free ranges of an arena, recorded in the free memory itself.
//
// Every call takes every handle, every lent memory and every number. A refused call returns empty ranges and the handle
// that it was given, and changes no word. Every function here is proved, and the crate assumes nothing of its own.
#![tactic(auto)]

mod delete;
mod find;
mod insert;
mod open;

ghost use Rattle.std.specs.Prelude.{true, ◌≡◌};
ghost use Rattle.units.specs.Rules.{refusal_number, good_align};
ghost use Rattle.units.specs.inner.Parts.{set_up_of};
ghost use Rattle.list_land.specs.Layout.{set_up, closed_with};
ghost use Rattle.list_land.specs.Calls.{changed, walked};
ghost use Rattle.list_land.specs.inner.Parts.{arena_in, chain_in, look_of, refused_by};

use list_words::{Chain, Spot};
use units::{Addr, Aim, Align, Arena, LowWater, Range, Refusal, Size};

// The handle of a list land: its arena, the first range's base (or 0), the number of ranges and of free bytes, the mark and low
// water.
#[repr(C)]
#[derive(Clone, Copy)]
pub struct ListLand {
    pub base: Addr,
    pub limit: Addr,
    pub align: Align,
    pub head: Addr,
    pub ranges: u64,
    pub bytes: Size,
    pub water: LowWater,
}

// What an opening returns.
#[repr(C)]
#[derive(Clone, Copy)]
pub struct Opened {
    pub land: ListLand,
    pub answer: u64,
}

// What insert, delete and walk return: the next handle, the answer's number, and the range.
#[repr(C)]
#[derive(Clone, Copy)]
pub struct Changed {
    pub land: ListLand,
    pub answer: u64,
    pub range: Range,
}

// What a find returns: the next handle, the answer's number, the range found, and the range that it was found in.
#[repr(C)]
#[derive(Clone, Copy)]
pub struct Found {
    pub land: ListLand,
    pub answer: u64,
    pub range: Range,
    pub old: Range,
}

fn refused(land: ListLand, refusal: Refusal) -> Changed
    ensures { result ≡ refused_by land (refusal_number refusal) }
{
    Changed {
        land,
        answer: refusal.number(),
        range: Range::none(),
    }
}

impl ListLand {
    // The arena of the handle.
    pub fn arena(self) -> Arena
        ensures { result ≡ arena_in self }
    {
        let ListLand {
            base,
            limit,
            align,
            ..
        } = self;
        Arena { base, limit, align }
    }

    // The arena of a handle with a good set-up, for one test.
    pub(crate) fn good_arena(self) -> Arena
        requires { good_align self.align.0 ≡ true }
        ensures { result ≡ arena_in self }
    {
        self.arena().by_bit()
    }

    // The same for the walk.
    fn walk_arena(self) -> Arena
        requires { good_align self.align.0 ≡ true }
        ensures { result ≡ arena_in self }
    {
        self.arena().divided()
    }

    // The chain of the handle.
    pub fn chain(self) -> Chain
        ensures { result ≡ chain_in self }
    {
        Chain {
            head: self.head,
            ranges: self.ranges,
            bytes: self.bytes,
        }
    }

    // Whether the fixed fields keep the arena rules and the arena is lent whole.
    pub fn set_up(self, words: &[u64]) -> Result<(), Refusal>
        ensures { result ≡ set_up_of (set_up self words.now) }
    {
        let Ok(()) = self.arena().check() else {
            return Err(Refusal::SetUp);
        };
        if self.limit.word_from(self.base) == words.len() {
            Ok(())
        } else {
            Err(Refusal::SetUp)
        }
    }

    // What a call finds before it looks at its request: the set-up, low water, and by the one walk the range aimed at.
    pub fn look(self, words: &[u64], aim: Aim) -> Result<Spot, Refusal>
        ensures { result ≡ look_of self words.now aim }
    {
        self.set_up(words)?;
        self.water.check(self.bytes)?;
        let arena = self.walk_arena();
        // Taken apart and made anew: handed on as it is, its fields would be set in every turn of the walk.
        let spot = list_words::survey(arena, words, self.chain(), arena.aim_of(aim))?;
        Ok(spot)
    }

    // The next handle of every accepted call, in which the number of free bytes is noted.
    pub fn close(self, head: Addr, ranges: u64, bytes: Size) -> ListLand
        ensures { result ≡ closed_with self head ranges bytes }
    {
        ListLand {
            base: self.base,
            limit: self.limit,
            align: self.align,
            head,
            ranges,
            bytes,
            water: self.water.noted(bytes),
        }
    }

    // The isolated range of lowest base at or above `from`. Going on from each range's limit meets every range once.
    pub fn walk(self, words: &[u64], from: Addr) -> Changed
        ensures { (result ≡ changed (walked self words.now from.0)) × (words.now ≡ (walked self words.now from.0).words) }
    {
        match self.look(words, Aim::From(from)) {
            Err(refusal) => refused(self, refusal),
            Ok(spot) => {
                let here = spot.here;
                if here.base.is_zero() {
                    return refused(self, Refusal::NoneFound);
                }
                Changed {
                    land: self,
                    answer: 0,
                    range: here,
                }
            }
        }
    }
}
