// The place of a range in a sound list, joined with the ranges that it touches.
ghost use Rattle.std.specs.Prelude.{◌≡◌, ◌≤◌, Some};
ghost use Rattle.list_edits.specs.inner.Places.{Following, following_of, placed, join_of, Placing, place_of};

use crate::Join;
use list_words::Spot;
use units::{Addr, Arena, Range};

// A place where the range overlaps none.
fn free(prev: Range, fresh: Range, next: Addr, joins: u64) -> Option<Join>
    ensures { result ≡ Some (placed prev fresh next joins) }
{
    Some(Join {
        prev,
        fresh,
        next,
        joins,
    })
}

// The place of a fresh range before the range above it, which may touch it; none where it overlaps it.
fn place_before(prev: Range, fresh: Range, joins: u64, above: Spot) -> Option<Join>
    requires { joins ≤ 1 }
    ensures { result ≡ join_of prev fresh joins above }
{
    let Spot { here: up, next, .. } = above;
    let base = up.base;
    if base.is_zero() {
        return free(prev, fresh, next, joins);
    }
    if base < fresh.limit {
        return None;
    }
    if base == fresh.limit {
        return free(prev, Range::new(fresh.base, up.limit), next, joins + 1);
    }
    free(prev, fresh, base, joins)
}

// The spot after a spot of a sound list.
#[tactic(auto, using(crate::proofs::PlaceWays::after_ways))]
fn following(arena: Arena, words: &[u64], spot: Spot) -> Spot
    requires { Following arena words.now spot }
    ensures { result ≡ following_of arena words.now spot }
{
    let prev = spot.here;
    let at = spot.next;
    if at.is_zero() {
        return Spot {
            prev,
            here: Range::none(),
            next: at,
        };
    }
    let above = list_words::descriptor_at(arena, words, at);
    let here = Range::new(at, above.limit);
    let next = above.next;
    Spot { prev, here, next }
}

// The place of a range at the first range of a sound list that reaches its base; none where it overlaps one.
#[tactic(auto, using(crate::proofs::PlaceWays::place_ways))]
pub(crate) fn place(arena: Arena, words: &[u64], range: Range, spot: Spot) -> Option<Join>
    requires { Placing arena words.now range spot }
    ensures { result ≡ place_of arena words.now range spot }
{
    let Spot { prev, here, .. } = spot;
    if here.limit == range.base {
        let above = following(arena, words, spot);
        let fresh = Range::new(here.base, range.limit);
        return place_before(prev, fresh, 1, above);
    }
    place_before(prev, range, 0, spot)
}
