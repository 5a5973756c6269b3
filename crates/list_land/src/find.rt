// The three finds: the range chosen, the part of it that is found, and its removal.
ghost use Rattle.std.specs.Prelude.{◌≡◌};
ghost use Rattle.units.specs.Rules.{refusal_number};
ghost use Rattle.units.specs.declared.aims.Aim.{Aim as Aim·};
ghost use Rattle.list_land.specs.Calls.{found_of, found};
ghost use Rattle.list_land.specs.inner.Parts.{Looked, aim_in, found_none};

use crate::{Found, ListLand};
use list_words::Spot;
use units::{Aim, Mode, Range, Refusal, Size, Which};

fn none_found(land: ListLand, refusal: Refusal) -> Found
    ensures { result ≡ found_none land (refusal_number refusal) }
{
    Found {
        land,
        answer: refusal.number(),
        range: Range::none(),
        old: Range::none(),
    }
}

impl ListLand {
    // A find in a sound list, at the range chosen: 4, 2, and the removal.
    fn find_at(self, words: &mut [u64], which: Which, size: Size, mode: Mode, spot: Spot) -> Found
        requires { Looked self words.old (aim_in self (Aim·.Find which size)) spot }
        ensures { (result ≡ found_of (found self words.old which size.0 mode)) × (words.new ≡ (found self words.old which size.0 mode).words) }
    {
        let arena = self.good_arena();
        let Ok(()) = arena.check_find(which, size) else {
            return none_found(self, Refusal::Request);
        };
        let here = spot.here;
        if here.base.is_zero() {
            return none_found(self, Refusal::NoneFound);
        }
        let part = finds::part(which, mode, arena.find_size(size), here);
        if let Mode::None = mode {
            return Found {
                land: self,
                answer: 0,
                range: here,
                old: here,
            };
        }
        let chain = list_edits::cut_at(arena, words, self.chain(), spot, part);
        Found {
            land: self.close(chain.head, chain.ranges, chain.bytes),
            answer: 0,
            range: part,
            old: here,
        }
    }

    // The find that `which` names: the set-up, the size, the one walk, and then 6, 4, 2 and the removal.
    pub fn find(self, words: &mut [u64], which: Which, size: Size, mode: Mode) -> Found
        ensures { (result ≡ found_of (found self words.old which size.0 mode)) × (words.new ≡ (found self words.old which size.0 mode).words) }
    {
        match self.look(words, Aim::Find(which, size)) {
            Err(refusal) => none_found(self, refusal),
            Ok(spot) => self.find_at(words, which, size, mode, spot),
        }
    }

    // The isolated range of at least the size with the lowest base.
    pub fn find_first(self, words: &mut [u64], size: Size, mode: Mode) -> Found
        ensures { (result ≡ found_of (found self words.old Which.First size.0 mode)) × (words.new ≡ (found self words.old Which.First size.0 mode).words) }
    {
        self.find(words, Which::First, size, mode)
    }

    // The isolated range of at least the size with the highest base.
    pub fn find_last(self, words: &mut [u64], size: Size, mode: Mode) -> Found
        ensures { (result ≡ found_of (found self words.old Which.Last size.0 mode)) × (words.new ≡ (found self words.old Which.Last size.0 mode).words) }
    {
        self.find(words, Which::Last, size, mode)
    }

    // The longest range, the lowest base among equals, if it reaches the size. Size 0 is unconditional.
    pub fn find_largest(self, words: &mut [u64], size: Size, mode: Mode) -> Found
        ensures { (result ≡ found_of (found self words.old Which.Largest size.0 mode)) × (words.new ≡ (found self words.old Which.Largest size.0 mode).words) }
    {
        self.find(words, Which::Largest, size, mode)
    }
}
