// Opening: a land with no ranges.
ghost use Rattle.std.specs.Prelude.{◌≡◌};
ghost use Rattle.list_land.specs.Calls.{new_land, opened_of};

use crate::{ListLand, Opened};
use units::{Addr, Align, LowWater, Size};

// The handle of a land with no ranges.
fn new_land(base: Addr, limit: Addr, align: Align) -> ListLand
    ensures { result ≡ new_land base.0 limit.0 align.0 }
{
    ListLand {
        base,
        limit,
        align,
        head: Addr::new(0),
        ranges: 0,
        bytes: Size::new(0),
        water: LowWater::unset(),
    }
}

impl ListLand {
    // Opens a land with no ranges on the arena [base, limit), whose words are lent. No word is written.
    pub fn open(base: Addr, limit: Addr, align: Align, words: &[u64]) -> Opened
        ensures { result ≡ opened_of base.0 limit.0 align.0 words.now }
    {
        let land = new_land(base, limit, align);
        if let Err(refusal) = land.set_up(words) {
            let zero = Addr::new(0);
            return Opened {
                land: new_land(zero, zero, Align::new(0)),
                answer: refusal.number(),
            };
        }
        Opened { land, answer: 0 }
    }
}
