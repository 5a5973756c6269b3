// Insert, delete and walk for a host that keeps the handle of a list land in a structure of its own.
//
// Each copies the handle, calls the method of the list land, stores the next handle where the old one stood, and returns
// what the method returned. Every function here is proved, and the crate assumes nothing of its own.
#![tactic(auto)]

ghost use Rattle.std.specs.Prelude.{◌≡◌};
ghost use Rattle.list_land.specs.Calls.{changed, inserted, deleted, walked};

use list_land::{Changed, ListLand};
use units::{Addr, Range};

pub fn insert(land: &mut ListLand, words: &mut [u64], range: Range) -> Changed
    ensures { (result ≡ changed (inserted land.old words.old range)) × (land.new ≡ result.land) × (words.new ≡ (inserted land.old words.old range).words) }
{
    let done = ListLand::insert(*land, words, range);
    *land = done.land;
    done
}

pub fn delete(land: &mut ListLand, words: &mut [u64], range: Range) -> Changed
    ensures { (result ≡ changed (deleted land.old words.old range)) × (land.new ≡ result.land) × (words.new ≡ (deleted land.old words.old range).words) }
{
    let done = ListLand::delete(*land, words, range);
    *land = done.land;
    done
}

pub fn walk(land: &mut ListLand, words: &[u64], from: Addr) -> Changed
    ensures { (result ≡ changed (walked land.old words.now from.0)) × (land.new ≡ result.land) × (words.now ≡ (walked land.old words.now from.0).words) }
{
    let done = ListLand::walk(*land, words, from);
    *land = done.land;
    done
}
