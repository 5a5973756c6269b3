// A pair: a list land and a block land on one arena. What has no room in the block land stands in the list.
//
// Every call takes every pair of handles, every lent memory and every number. A refused call returns empty ranges and the
// handles that it was given, and changes no word of either memory. Every function here is proved, and the crate assumes
// nothing of its own.
#![tactic(auto)]

mod delete;
mod edits;
mod find;
mod insert;

ghost use Rattle.std.specs.Prelude.{◌≡◌};
ghost use Rattle.units.specs.Rules.{refusal_number};
ghost use Rattle.units.specs.inner.Parts.{set_up_of, soundness_of};
ghost use Rattle.pair.specs.Calls.{set_up};
ghost use Rattle.pair.specs.inner.Parts.{sound_lows, check_of, refused_by, found_none};

use block_land::BlockLand;
use block_words::{Entry, seeks};
use list_land::ListLand;
use list_words::Spot;
use pair_words::walks;
use units::{Aim, Range, Refusal};

// The handles of both lands.
#[repr(C)]
#[derive(Clone, Copy)]
pub struct Pair {
    pub list: ListLand,
    pub block: BlockLand,
}

// What insert and delete return: the next handles, the answer's number, and the range.
#[repr(C)]
#[derive(Clone, Copy)]
pub struct Changed {
    pub pair: Pair,
    pub answer: u64,
    pub range: Range,
}

// What a find returns: the next handles, the answer's number, the range found, and the range that it was found in.
#[repr(C)]
#[derive(Clone, Copy)]
pub struct Found {
    pub pair: Pair,
    pub answer: u64,
    pub range: Range,
    pub old: Range,
}

fn refused(pair: Pair, refusal: Refusal) -> Changed
    ensures { result ≡ refused_by pair (refusal_number refusal) }
{
    Changed {
        pair,
        answer: refusal.number(),
        range: Range::none(),
    }
}

fn none_found(pair: Pair, refusal: Refusal) -> Found
    ensures { result ≡ found_none pair (refusal_number refusal) }
{
    Found {
        pair,
        answer: refusal.number(),
        range: Range::none(),
        old: Range::none(),
    }
}

impl Pair {
    // Whether the arenas of both lands are one, its set-up is good, and node space is not too long.
    fn set_up(self, words: &[u64], nodes: &[u64]) -> Result<(), Refusal>
        ensures { result ≡ set_up_of (set_up self words.now nodes.now) }
    {
        let list = self.list;
        flush::same_arena(list, self.block)?;
        list.set_up(words)?;
        block_land::lent(nodes)
    }

    // Whether each handle's mark and low water may be those of a sound land.
    fn low_waters(self) -> Result<(), Refusal>
        ensures { result ≡ soundness_of (sound_lows self) }
    {
        let list = self.list;
        let block = self.block;
        let listed = list.water;
        let tabled = block.water;
        listed.check(list.bytes)?;
        tabled.check(block.bytes)
    }

    // The checks of a call: the set-up, a sound table, then in one walk a sound list with no byte that is in the table too, and low
    // water, last: tested before the walk it costs more at every range. What the call asks for is kept of both.
    pub fn check(self, words: &[u64], nodes: &[u64], aim: Aim) -> Result<(Spot, Entry), Refusal>
        ensures { result ≡ check_of self words.now nodes.now aim }
    {
        self.set_up(words, nodes)?;
        let list = self.list;
        let block = self.block;
        let arena = list.arena();
        let bytes = block.bytes;
        block_words::sound(arena, nodes, block.ranges, bytes)?;
        let n = block.ranges as usize;
        let arena = arena.divided();
        let aim = arena.aim_of(aim);
        let spot = walks::survey(arena, words, list.chain(), nodes, n, aim)?;
        self.low_waters()?;
        Ok((spot, seeks::entry(nodes, n, aim)))
    }
}
