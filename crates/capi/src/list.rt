// The list land.
ghost use Rattle.std.specs.Prelude.{◌≡◌};
ghost use Rattle.units.specs.declared.Which.{Which};
ghost use Rattle.list_land.specs.inner.Parts.{found_none};
ghost use Rattle.list_land.specs.Calls.{opened_of, inserted, deleted, walked, changed, found_of};
ghost use Rattle.list_land.specs.Layout.{set_up, sound};
ghost use Rattle.capi.specs.Modes.{unknown_mode};
ghost use Rattle.capi.specs.ListFinds.{found_by};

use crate::modes;
use list_land::{Changed, Found, ListLand, Opened};
use units::{Addr, Aim, Align, Range, Size, Which};

pub fn lg_list_open(base: u64, limit: u64, align: u64, words: &[u64]) -> Opened
    ensures { result ≡ opened_of base limit align words.now }
{
    ListLand::open(Addr::new(base), Addr::new(limit), Align::new(align), words)
}

pub fn lg_list_insert(land: ListLand, words: &mut [u64], range: Range) -> Changed
    ensures { (result ≡ changed (inserted land words.old range)) × (words.new ≡ (inserted land words.old range).words) }
{
    land.insert(words, range)
}

pub fn lg_list_delete(land: ListLand, words: &mut [u64], range: Range) -> Changed
    ensures { (result ≡ changed (deleted land words.old range)) × (words.new ≡ (deleted land words.old range).words) }
{
    land.delete(words, range)
}

// The refusal of a find whose mode is not known.
pub fn refuse(land: ListLand, words: &[u64]) -> Found
    ensures { result ≡ found_none land (unknown_mode (set_up land words.now) (sound land words.now)) }
{
    Found {
        land,
        answer: modes::refusal_after(land.look(words, Aim::Nothing)).number(),
        range: Range::none(),
        old: Range::none(),
    }
}

// The find that `which` names, with its size and its mode as numbers.
pub fn find(land: ListLand, words: &mut [u64], which: Which, size: u64, mode: u64) -> Found
    ensures { (result ≡ found_of (found_by land words.old which size mode)) × (words.new ≡ (found_by land words.old which size mode).words) }
{
    match modes::mode_of(mode) {
        Some(mode) => land.find(words, which, Size::new(size), mode),
        None => refuse(land, words),
    }
}

pub fn lg_list_find_first(land: ListLand, words: &mut [u64], size: u64, mode: u64) -> Found
    ensures { (result ≡ found_of (found_by land words.old Which.First size mode)) × (words.new ≡ (found_by land words.old Which.First size mode).words) }
{
    find(land, words, Which::First, size, mode)
}

pub fn lg_list_walk(land: ListLand, words: &[u64], from: u64) -> Changed
    ensures { (result ≡ changed (walked land words.now from)) × (words.now ≡ (walked land words.now from).words) }
{
    land.walk(words, Addr::new(from))
}
