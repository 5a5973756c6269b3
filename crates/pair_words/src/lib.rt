// The words of a list land and of a block land of one arena, read together.
//
// Every function here is proved, and the crate assumes nothing of its own. These are inner functions: a `requires`
// says what the calls of a pair have checked before.
#![tactic(auto)]

pub mod walks;

ghost use Rattle.std.specs.Prelude.{◌≡◌};
ghost use Rattle.units.specs.declared.aims.Aim.{Aim};
ghost use Rattle.list_words.specs.inner.Surveys.{walk_of, kept_of};
ghost use Rattle.block_words.specs.Words.{pairs};
ghost use Rattle.pair_model.specs.Pairs.{inside};
ghost use Rattle.pair_words.specs.inner.Shares.{share, Listed, Tabled};
ghost use Rattle.pair_words.specs.inner.Lefts.{Left};

use list_words::Spot;
use units::{Addr, Arena, Range, Size};

// The bytes of y that are in a range.
fn common(y: Range, here: Range) -> Size
    ensures { result.0 ≡ share y here }
{
    let from = y.base.max(here.base);
    let upto = y.limit.min(here.limit);
    if upto <= from {
        return Size::new(0);
    }
    from.size_to(upto)
}

// The bytes of a range that are in the ranges of a sound list.
pub fn list_share(arena: Arena, words: &[u64], head: Addr, range: Range) -> Size
    requires { Listed arena words.now head.0 }
    ensures { result.0 ≡ inside range.base.0 range.limit.0 (walk_of arena words.now head.0).met }
{
    let mut at = head;
    let mut sum = Size::new(0);
    while !at.is_zero() {
        let here = list_words::descriptor_at(arena, words, at);
        sum = sum.plus(common(range, Range::new(at, here.limit)));
        at = here.next;
    }
    sum
}

// The bytes of a range that are in the ranges of a sound table.
pub fn table_share(nodes: &[u64], count: u64, range: Range) -> Size
    requires { Tabled nodes.now count }
    ensures { result.0 ≡ inside range.base.0 range.limit.0 (pairs nodes.now count) }
{
    let mut sum = Size::new(0);
    for i in 0..count as usize {
        let here = block_words::pair_at(nodes, i);
        sum = sum.plus(common(range, here));
    }
    sum
}

// The first range that reaches an address in what is left of a sound list from `head` on, where `spot` is that of the whole.
pub fn spot_left(arena: Arena, words: &[u64], head: Addr, base: Addr, spot: Spot) -> Spot
    requires { Left arena words.now head base spot }
    ensures { result ≡ kept_of (Aim.Reach base) (walk_of arena words.now head.0).met }
{
    let prev = Range::none();
    if head.is_zero() {
        return Spot {
            prev,
            here: Range::none(),
            next: head,
        };
    }
    let first = list_words::descriptor_at(arena, words, head);
    if base <= first.limit {
        let here = Range::new(head, first.limit);
        let next = first.next;
        return Spot { prev, here, next };
    }
    spot
}
