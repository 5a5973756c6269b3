// The list land.
ghost use Rattle.std.specs.Prelude.{◌≡◌};
ghost use Rattle.units.specs.declared.Which.{Which};
ghost use Rattle.list_land.specs.Calls.{found_of};
ghost use Rattle.capi.specs.ListFinds.{found_by};

use list_land::{Found, ListLand};
use units::Which;

#[unsafe(no_mangle)]
pub extern "C" fn lg_list_find_last(
    land: ListLand,
    words: &mut [u64],
    size: u64,
    mode: u64,
) -> Found
    ensures { (result ≡ found_of (found_by land words.old Which.Last size mode)) × (words.new ≡ (found_by land words.old Which.Last size mode).words) }
{
    capi::list::find(land, words, Which::Last, size, mode)
}

#[unsafe(no_mangle)]
pub extern "C" fn lg_list_find_largest(
    land: ListLand,
    words: &mut [u64],
    size: u64,
    mode: u64,
) -> Found
    ensures { (result ≡ found_of (found_by land words.old Which.Largest size mode)) × (words.new ≡ (found_by land words.old Which.Largest size mode).words) }
{
    capi::list::find(land, words, Which::Largest, size, mode)
}
