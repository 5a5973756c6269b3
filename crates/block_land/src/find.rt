// The three finds: the range chosen, the part of it that is found, and its removal.
ghost use Rattle.std.specs.Prelude.{true, ◌≡◌};
ghost use Rattle.units.specs.Rules.{refusal_number};
ghost use Rattle.model.specs.Calls.{good_size_in};
ghost use Rattle.block_land.specs.Calls.{found_of, found};
ghost use Rattle.block_land.specs.Layout.{arena_of};
ghost use Rattle.block_land.specs.inner.Parts.{Looked, find_aim, found_none};

use crate::{BlockLand, Found};
use block_words::{Entry, seeks};
use units::{Mode, Range, Refusal, Size, Which};

fn none_found(land: BlockLand, refusal: Refusal) -> Found
    ensures { result ≡ found_none land (refusal_number refusal) }
{
    Found {
        land,
        answer: refusal.number(),
        range: Range::none(),
        old: Range::none(),
    }
}

impl BlockLand {
    // A find of a good size in a sound table, at the entry chosen. It needs no room: the part reaches an end of its range.
    fn find_at(self, nodes: &mut [u64], which: Which, size: Size, mode: Mode, entry: Entry) -> Found
        requires looked { Looked self nodes.old (find_aim self which size) entry }
        requires size_value { good_size_in (arena_of self nodes.old) which size.0 ≡ true }
        ensures { (result ≡ found_of (found self nodes.old which size.0 mode)) × (nodes.new ≡ (found self nodes.old which size.0 mode).words) }
    {
        let here = entry.here;
        if here.base.is_zero() {
            return none_found(self, Refusal::NoneFound);
        }
        let part = finds::part(which, mode, self.arena().find_size(size), here);
        if let Mode::None = mode {
            return Found {
                land: self,
                answer: 0,
                range: here,
                old: here,
            };
        }
        let count = block_edits::cut::cut_at(nodes, self.ranges, entry.number, part);
        let bytes = self.bytes.minus(part.size());
        Found {
            land: self.close(count, bytes),
            answer: 0,
            range: part,
            old: here,
        }
    }

    // The find that `which` names: the set-up, the size, low water and the one scan, and then 6, 4, 2 and the removal.
    pub fn find(self, nodes: &mut [u64], which: Which, size: Size, mode: Mode) -> Found
        ensures { (result ≡ found_of (found self nodes.old which size.0 mode)) × (nodes.new ≡ (found self nodes.old which size.0 mode).words) }
    {
        if let Err(refusal) = self.set_up(nodes) {
            return none_found(self, refusal);
        }
        let arena = self.good_arena();
        let check = arena.check_find(which, size);
        let wanted = arena.find_size(size);
        if let Err(refusal) = self.judge(arena, nodes) {
            return none_found(self, refusal);
        }
        let Ok(()) = check else {
            return none_found(self, Refusal::Request);
        };
        let entry = seeks::found(nodes, self.ranges as usize, which, wanted);
        self.find_at(nodes, which, size, mode, entry)
    }

    // The isolated range of at least the size with the lowest base.
    pub fn find_first(self, nodes: &mut [u64], size: Size, mode: Mode) -> Found
        ensures { (result ≡ found_of (found self nodes.old Which.First size.0 mode)) × (nodes.new ≡ (found self nodes.old Which.First size.0 mode).words) }
    {
        self.find(nodes, Which::First, size, mode)
    }

    // The isolated range of at least the size with the highest base.
    pub fn find_last(self, nodes: &mut [u64], size: Size, mode: Mode) -> Found
        ensures { (result ≡ found_of (found self nodes.old Which.Last size.0 mode)) × (nodes.new ≡ (found self nodes.old Which.Last size.0 mode).words) }
    {
        self.find(nodes, Which::Last, size, mode)
    }

    // The longest range, the lowest base among equals, if it reaches the size. Size 0 is unconditional.
    pub fn find_largest(self, nodes: &mut [u64], size: Size, mode: Mode) -> Found
        ensures { (result ≡ found_of (found self nodes.old Which.Largest size.0 mode)) × (nodes.new ≡ (found self nodes.old Which.Largest size.0 mode).words) }
    {
        self.find(nodes, Which::Largest, size, mode)
    }
}
