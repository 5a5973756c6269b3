// Opening: a land with no ranges, its node space set to 0.
ghost use Rattle.std.specs.Prelude.{◌≡◌};
ghost use Rattle.block_land.specs.Calls.{new_land, opened_of, opened_words};

use crate::{BlockLand, Opened};
use units::{Addr, Align, LowWater, Size};

// The handle of a land with no ranges.
fn new_land(base: Addr, limit: Addr, align: Align) -> BlockLand
    ensures { result ≡ new_land base.0 limit.0 align.0 }
{
    BlockLand {
        base,
        limit,
        align,
        ranges: 0,
        bytes: Size::new(0),
        water: LowWater::unset(),
    }
}

impl BlockLand {
    // Opens a land with no ranges on the arena [base, limit), recorded in the node space lent, whose pair words are set to 0.
    pub fn open(base: Addr, limit: Addr, align: Align, nodes: &mut [u64]) -> Opened
        ensures { (result ≡ opened_of base.0 limit.0 align.0 nodes.old) × (nodes.new ≡ opened_words base.0 limit.0 align.0 nodes.old) }
    {
        let land = new_land(base, limit, align);
        if let Err(refusal) = land.set_up(nodes) {
            let zero = Addr::new(0);
            let none = new_land(zero, zero, Align::new(0));
            let answer = refusal.number();
            return Opened { land: none, answer };
        }
        block_shifts::clear(nodes);
        Opened { land, answer: 0 }
    }
}
