// The list land.
ghost use Rattle.std.specs.Prelude.{◌≡◌};
ghost use Rattle.units.specs.declared.Which.{Which};
ghost use Rattle.list_land.specs.Calls.{opened_of, inserted, deleted, walked, changed, found_of};
ghost use Rattle.capi.specs.ListFinds.{found_by};

use list_land::{Changed, Found, ListLand, Opened};
use units::Range;

#[unsafe(no_mangle)]
pub extern "C" fn lg_list_open(base: u64, limit: u64, align: u64, words: &[u64]) -> Opened
    ensures { result ≡ opened_of base limit align words.now }
{
    capi::list::lg_list_open(base, limit, align, words)
}

#[unsafe(no_mangle)]
pub extern "C" fn lg_list_insert(land: ListLand, words: &mut [u64], range: Range) -> Changed
    ensures { (result ≡ changed (inserted land words.old range)) × (words.new ≡ (inserted land words.old range).words) }
{
    capi::list::lg_list_insert(land, words, range)
}

#[unsafe(no_mangle)]
pub extern "C" fn lg_list_delete(land: ListLand, words: &mut [u64], range: Range) -> Changed
    ensures { (result ≡ changed (deleted land words.old range)) × (words.new ≡ (deleted land words.old range).words) }
{
    capi::list::lg_list_delete(land, words, range)
}

#[unsafe(no_mangle)]
pub extern "C" fn lg_list_find_first(
    land: ListLand,
    words: &mut [u64],
    size: u64,
    mode: u64,
) -> Found
    ensures { (result ≡ found_of (found_by land words.old Which.First size mode)) × (words.new ≡ (found_by land words.old Which.First size mode).words) }
{
    capi::list::lg_list_find_first(land, words, size, mode)
}

#[unsafe(no_mangle)]
pub extern "C" fn lg_list_walk(land: ListLand, words: &[u64], from: u64) -> Changed
    ensures { (result ≡ changed (walked land words.now from)) × (words.now ≡ (walked land words.now from).words) }
{
    capi::list::lg_list_walk(land, words, from)
}
