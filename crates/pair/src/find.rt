// The three finds: the range chosen in each land, which of the two is taken, and the find in that land alone.
ghost use Rattle.std.specs.Prelude.{◌≡◌};
ghost use Rattle.units.specs.declared.aims.Aim.{Aim as Aim·};
ghost use Rattle.model.specs.inner.Lists.{plain};
ghost use Rattle.list_land.specs.Calls as list;
ghost use Rattle.block_land.specs.Calls as block;
ghost use Rattle.pair_model.specs.Pairs.{list_first};
ghost use Rattle.pair.specs.Calls.{found, found_of};
ghost use Rattle.pair.specs.inner.Parts.{aim_in, Checked};
ghost use Rattle.pair.specs.inner.Finding.{Ordered, Sought, side_of, ListChosen, BlockChosen, list_found, block_found};

use crate::edits::{take_listed, take_tabled};
use crate::{Found, Pair, none_found};
use block_words::Entry;
use list_words::Spot;
use units::{Aim, Mode, Range, Refusal, Size, Which};

// The land whose range is taken.
#[derive(Clone, Copy, Debug, PartialEq, Eq)]
pub enum Side {
    List,
    Block,
}

// Whether the list's range is taken and not the block land's: the lower, the higher, the longer, the lower among equals.
fn list_first(which: Which, list: Range, block: Range) -> bool
    requires { Ordered list block }
    ensures { result ≡ list_first which (plain list) (plain block) }
{
    match which {
        Which::First => list.base < block.base,
        Which::Last => block.base < list.base,
        Which::Largest => {
            let here = list.size();
            let there = block.size();
            if there < here {
                return true;
            }
            if there != here {
                return false;
            }
            list.base < block.base
        }
    }
}

// The land whose range is taken of those that are not none, if there is one.
fn choose_side(which: Which, list: Range, block: Range) -> Option<Side>
    requires { Ordered list block }
    ensures { result ≡ side_of which list block }
{
    if list.base.is_zero() {
        if block.base.is_zero() {
            return None;
        }
        return Some(Side::Block);
    }
    if block.base.is_zero() {
        return Some(Side::List);
    }
    if list_first(which, list, block) {
        Some(Side::List)
    } else {
        Some(Side::Block)
    }
}

impl Pair {
    // The find in the list, at the range chosen.
    fn find_in_list(
        self,
        words: &mut [u64],
        which: Which,
        size: Size,
        mode: Mode,
        spot: Spot,
    ) -> Found
        requires { ListChosen self.list words.old which size spot }
        ensures { (result ≡ list_found self (list.found self.list words.old which size.0 mode)) × (words.new ≡ (list.found self.list words.old which size.0 mode).words) }
    {
        let here = spot.here;
        let part = finds::part(which, mode, self.list.arena().find_size(size), here);
        if let Mode::None = mode {
            return Found {
                pair: self,
                answer: 0,
                range: here,
                old: here,
            };
        }
        let list = take_listed(self.list, words, part, spot);
        Found {
            pair: Pair { list, ..self },
            answer: 0,
            range: part,
            old: here,
        }
    }

    // The find in the block land, at the entry chosen. It needs no room: the part reaches an end of its range.
    fn find_in_block(
        self,
        nodes: &mut [u64],
        which: Which,
        size: Size,
        mode: Mode,
        entry: Entry,
    ) -> Found
        requires { BlockChosen self.block nodes.old which size entry }
        ensures { (result ≡ block_found self (block.found self.block nodes.old which size.0 mode)) × (nodes.new ≡ (block.found self.block nodes.old which size.0 mode).words) }
    {
        let here = entry.here;
        let part = finds::part(which, mode, self.block.arena().find_size(size), here);
        if let Mode::None = mode {
            return Found {
                pair: self,
                answer: 0,
                range: here,
                old: here,
            };
        }
        let block = take_tabled(self.block, nodes, entry.number, part);
        Found {
            pair: Pair { block, ..self },
            answer: 0,
            range: part,
            old: here,
        }
    }

    // A find of a good size in a sound pair, at the ranges chosen in both lands: 2, and the removal.
    fn find_sized(
        self,
        words: &mut [u64],
        nodes: &mut [u64],
        which: Which,
        size: Size,
        mode: Mode,
        spot: Spot,
        entry: Entry,
    ) -> Found
        requires { Sought self words.old nodes.old which size spot entry }
        ensures { (result ≡ found_of (found self words.old nodes.old which size.0 mode)) × (words.new ≡ (found self words.old nodes.old which size.0 mode).words.list) × (nodes.new ≡ (found self words.old nodes.old which size.0 mode).words.block) }
    {
        match choose_side(which, spot.here, entry.here) {
            None => none_found(self, Refusal::NoneFound),
            Some(Side::List) => self.find_in_list(words, which, size, mode, spot),
            Some(Side::Block) => self.find_in_block(nodes, which, size, mode, entry),
        }
    }

    // A find in a sound pair, at what its aim keeps of both lands: 4, and then the ranges chosen.
    fn find_at(
        self,
        words: &mut [u64],
        nodes: &mut [u64],
        which: Which,
        size: Size,
        mode: Mode,
        spot: Spot,
        entry: Entry,
    ) -> Found
        requires { Checked self words.old nodes.old (aim_in self (Aim·.Find which size)) spot entry }
        ensures { (result ≡ found_of (found self words.old nodes.old which size.0 mode)) × (words.new ≡ (found self words.old nodes.old which size.0 mode).words.list) × (nodes.new ≡ (found self words.old nodes.old which size.0 mode).words.block) }
    {
        let Ok(()) = self.block.arena().by_bit().check_find(which, size) else {
            return none_found(self, Refusal::Request);
        };
        self.find_sized(words, nodes, which, size, mode, spot, entry)
    }

    // The find that `which` names: the set-up, the size, the one look at both lands, and then 6, 4, 2 and the removal.
    pub fn find(
        self,
        words: &mut [u64],
        nodes: &mut [u64],
        which: Which,
        size: Size,
        mode: Mode,
    ) -> Found
        ensures { (result ≡ found_of (found self words.old nodes.old which size.0 mode)) × (words.new ≡ (found self words.old nodes.old which size.0 mode).words.list) × (nodes.new ≡ (found self words.old nodes.old which size.0 mode).words.block) }
    {
        match self.check(words, nodes, Aim::Find(which, size)) {
            Ok((spot, entry)) => self.find_at(words, nodes, which, size, mode, spot, entry),
            Err(refusal) => none_found(self, refusal),
        }
    }

    // The isolated range of at least the size with the lowest base in either land.
    pub fn find_first(self, words: &mut [u64], nodes: &mut [u64], size: Size, mode: Mode) -> Found
        ensures { (result ≡ found_of (found self words.old nodes.old Which.First size.0 mode)) × (words.new ≡ (found self words.old nodes.old Which.First size.0 mode).words.list) × (nodes.new ≡ (found self words.old nodes.old Which.First size.0 mode).words.block) }
    {
        self.find(words, nodes, Which::First, size, mode)
    }

    // The isolated range of at least the size with the highest base in either land.
    pub fn find_last(self, words: &mut [u64], nodes: &mut [u64], size: Size, mode: Mode) -> Found
        ensures { (result ≡ found_of (found self words.old nodes.old Which.Last size.0 mode)) × (words.new ≡ (found self words.old nodes.old Which.Last size.0 mode).words.list) × (nodes.new ≡ (found self words.old nodes.old Which.Last size.0 mode).words.block) }
    {
        self.find(words, nodes, Which::Last, size, mode)
    }

    // The longest range of either land, the lowest base among equals, if it reaches the size. Size 0 is unconditional.
    pub fn find_largest(self, words: &mut [u64], nodes: &mut [u64], size: Size, mode: Mode) -> Found
        ensures { (result ≡ found_of (found self words.old nodes.old Which.Largest size.0 mode)) × (words.new ≡ (found self words.old nodes.old Which.Largest size.0 mode).words.list) × (nodes.new ≡ (found self words.old nodes.old Which.Largest size.0 mode).words.block) }
    {
        self.find(words, nodes, Which::Largest, size, mode)
    }
}
