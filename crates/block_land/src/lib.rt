// The block land: a set of free ranges of an arena, recorded in node space of its own.
//
// Every call takes every handle, every lent memory and every number. A refused call returns empty ranges and the handle
// that it was given, and changes no word. Every function here is proved, and the crate assumes nothing of its own.
#![tactic(auto)]

mod delete;
mod find;
mod insert;
mod open;

ghost use Rattle.std.specs.Prelude.{true, ◌≡◌};
ghost use Rattle.units.specs.Rules.{good_align, refusal_number};
ghost use Rattle.units.specs.inner.Parts.{set_up_of, soundness_of};
ghost use Rattle.block_land.specs.Layout.{lent, set_up, sound, closed_with};
ghost use Rattle.block_land.specs.Calls.{changed, walked};
ghost use Rattle.block_land.specs.inner.Parts.{arena_in, look_of, refused_by};

use block_words::Entry;
use units::{Addr, Aim, Align, Arena, LowWater, Range, Refusal, Size};

// The handle of a block land: its arena, the number of ranges and of free bytes, the mark and low water.
#[repr(C)]
#[derive(Clone, Copy)]
pub struct BlockLand {
    pub base: Addr,
    pub limit: Addr,
    pub align: Align,
    pub ranges: u64,
    pub bytes: Size,
    pub water: LowWater,
}

// What an opening returns.
#[repr(C)]
#[derive(Clone, Copy)]
pub struct Opened {
    pub land: BlockLand,
    pub answer: u64,
}

// What insert, delete and walk return: the next handle, the answer's number, and the range.
#[repr(C)]
#[derive(Clone, Copy)]
pub struct Changed {
    pub land: BlockLand,
    pub answer: u64,
    pub range: Range,
}

// What a find returns: the next handle, the answer's number, the range found, and the range that it was found in.
#[repr(C)]
#[derive(Clone, Copy)]
pub struct Found {
    pub land: BlockLand,
    pub answer: u64,
    pub range: Range,
    pub old: Range,
}

fn refused(land: BlockLand, refusal: Refusal) -> Changed
    ensures { result ≡ refused_by land (refusal_number refusal) }
{
    Changed {
        land,
        answer: refusal.number(),
        range: Range::none(),
    }
}

// Whether node space is not too long.
pub fn lent(nodes: &[u64]) -> Result<(), Refusal>
    ensures { result ≡ set_up_of (lent nodes.now) }
{
    if nodes.len() <= 2097152 {
        Ok(())
    } else {
        Err(Refusal::SetUp)
    }
}

impl BlockLand {
    // The arena of the handle.
    pub fn arena(self) -> Arena
        ensures { result ≡ arena_in self }
    {
        let base = self.base;
        let limit = self.limit;
        let align = self.align;
        Arena { base, limit, align }
    }

    // The arena of a handle with a good set-up, for one test.
    pub(crate) fn good_arena(self) -> Arena
        requires { good_align self.align.0 ≡ true }
        ensures { result ≡ arena_in self }
    {
        self.arena().by_bit()
    }

    // Whether the fixed fields keep the arena rules and node space is not too long.
    pub fn set_up(self, nodes: &[u64]) -> Result<(), Refusal>
        ensures { result ≡ set_up_of (set_up self nodes.now) }
    {
        let Ok(()) = self.arena().check() else {
            return Err(Refusal::SetUp);
        };
        lent(nodes)
    }

    // Low water, and the one scan of a call: whether the land is sound.
    pub(crate) fn judge(self, arena: Arena, nodes: &[u64]) -> Result<(), Refusal>
        requires nodes_value { set_up self nodes.now ≡ true }
        requires arena_value { arena ≡ arena_in self }
        ensures { result ≡ soundness_of (sound self nodes.now) }
    {
        let bytes = self.bytes;
        self.water.check(bytes)?;
        block_words::sound(arena, nodes, self.ranges, bytes)
    }

    // The same, with what is aimed at.
    pub fn look(self, nodes: &[u64], aim: Aim) -> Result<Entry, Refusal>
        ensures { result ≡ look_of self nodes.now aim }
    {
        self.set_up(nodes)?;
        self.water.check(self.bytes)?;
        block_words::survey(self.arena(), nodes, self.ranges, self.bytes, aim)
    }

    // The next handle of every accepted call, in which the number of free bytes is noted.
    pub fn close(self, ranges: u64, bytes: Size) -> BlockLand
        ensures { result ≡ closed_with self ranges bytes }
    {
        let base = self.base;
        let limit = self.limit;
        let align = self.align;
        let water = self.water.noted(bytes);
        BlockLand {
            base,
            limit,
            align,
            ranges,
            bytes,
            water,
        }
    }

    // The isolated range of lowest base at or above `from`. Going on from each range's limit meets every range once.
    pub fn walk(self, nodes: &[u64], from: Addr) -> Changed
        ensures { (result ≡ changed (walked self nodes.now from.0)) × (nodes.now ≡ (walked self nodes.now from.0).words) }
    {
        match self.look(nodes, Aim::From(from)) {
            Err(refusal) => refused(self, refusal),
            Ok(entry) => {
                let range = entry.here;
                if range.base.is_zero() {
                    return refused(self, Refusal::NoneFound);
                }
                Changed {
                    land: self,
                    answer: 0,
                    range,
                }
            }
        }
    }
}
