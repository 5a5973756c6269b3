// The calls for a host in C that keeps the list handle in a structure of its own: the next one is stored in its place.
//
// Every function here is proved to equal the call of `thin` that it makes, and the crate assumes nothing of its own.
#![tactic(auto)]

ghost use Rattle.std.specs.Prelude.{◌≡◌};
ghost use Rattle.list_land.specs.Calls.{changed, inserted, deleted, walked};

use list_land::{Changed, ListLand};
use units::{Addr, Range};

#[unsafe(no_mangle)]
pub extern "C" fn lg_list_insert_at(land: &mut ListLand, words: &mut [u64], range: Range) -> Changed
    ensures { (result ≡ changed (inserted land.old words.old range)) × (land.new ≡ result.land) × (words.new ≡ (inserted land.old words.old range).words) }
{
    thin::insert(land, words, range)
}

#[unsafe(no_mangle)]
pub extern "C" fn lg_list_delete_at(land: &mut ListLand, words: &mut [u64], range: Range) -> Changed
    ensures { (result ≡ changed (deleted land.old words.old range)) × (land.new ≡ result.land) × (words.new ≡ (deleted land.old words.old range).words) }
{
    thin::delete(land, words, range)
}

#[unsafe(no_mangle)]
pub extern "C" fn lg_list_walk_at(land: &mut ListLand, words: &[u64], from: Addr) -> Changed
    ensures { (result ≡ changed (walked land.old words.now from.0)) × (land.new ≡ result.land) × (words.now ≡ (walked land.old words.now from.0).words) }
{
    thin::walk(land, words, from)
}
