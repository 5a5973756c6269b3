// The walk over a list beside a sound table: what a survey of the list finds, and of each range whether it overlaps a pair.
ghost use Rattle.std.specs.Prelude.{◌≤◌, true, ◌≡◌, length};
ghost use Rattle.units.specs.inner.Aims.{none_range, keeps_first};
ghost use Rattle.units.specs.inner.Parts.{soundness_of};
ghost use Rattle.list_words.specs.inner.Seeks.{sought};
ghost use Rattle.list_words.specs.inner.Surveys.{Ready, Along, kept_of};
ghost use Rattle.block_words.specs.Words.{capacity};
ghost use Rattle.block_words.specs.inner.Tallies.{behind};
ghost use Rattle.block_words.specs.inner.Surveys.{Rising};
ghost use Rattle.pair_words.specs.inner.Besides.{beside_of, Abreast, SeeksBeside, sound_beside, survey_beside};

use list_words::cursor::Cursor;
use list_words::{Chain, Descriptor, Spot};
use units::{Addr, Aim, Arena, Goal, Range, Refusal, Size};

// Where a range stands beside a table, of the pairs from number `from` on: before the first pair that ends above its base, or
// behind all; nowhere if it overlaps a pair.
fn place_beside(nodes: &[u64], n: usize, from: usize, here: Range) -> Option<usize>
    requires n_bound { n ≤ capacity nodes.now }
    requires from_le_n { from ≤ n }
    ensures { result ≡ beside_of here from (behind nodes.now n from) }
{
    let mut i = from;
    while i < n {
        let pair = block_words::pair_at(nodes, i);
        if here.base < pair.limit {
            if here.limit <= pair.base {
                return Some(i);
            }
            return None;
        }
        i += 1;
    }
    Some(i)
}

// The walk from head up to the first range that fits (none, behind the last range, where there is none), with the cursor behind it,
// and the number of the pair that stands there. Refused are a fault, and lands that overlap.
#[inline(always)]
fn seek(
    arena: Arena,
    words: &[u64],
    head: Addr,
    nodes: &[u64],
    n: usize,
    goal: Goal,
) -> Result<(Spot, Cursor, usize), Refusal>
    requires ready { Ready arena (length words.now) }
    requires rising { Rising nodes.now n }
    ensures { SeeksBeside arena words.now head.0 nodes.now n (sought goal none_range) result }
{
    let mut prev = Range::none();
    let mut cur = Cursor::start(arena, head);
    let mut i: usize = 0;
    while !cur.at.is_zero() {
        let Descriptor { limit, next } = list_words::range_at(arena, words, cur.low, cur.at)?;
        let here = Range::new(cur.at, limit);
        let Some(j) = place_beside(nodes, n, i, here) else {
            return Err(Refusal::Damaged);
        };
        i = j;
        cur = cur.on(limit, next);
        if goal.fits(here) {
            return Ok((Spot { prev, here, next }, cur, i));
        }
        prev = here;
    }
    Ok((Spot::behind(prev), cur, i))
}

// The walk of an aim that keeps the first range that it takes, up to that range. No limit reaches 2^64 - 1.
fn first(
    arena: Arena,
    words: &[u64],
    head: Addr,
    nodes: &[u64],
    n: usize,
    aim: Aim,
) -> Result<(Spot, Cursor, usize), Refusal>
    requires ready { Ready arena (length words.now) }
    requires rising { Rising nodes.now n }
    requires aim_value { keeps_first aim ≡ true }
    ensures { SeeksBeside arena words.now head.0 nodes.now n (kept_of aim) result }
{
    let reach = Addr::new(0);
    let from = Addr::new(0);
    let size = Size::new(0);
    match aim {
        Aim::Nothing => {
            let reach = Addr::new(18446744073709551615);
            seek(arena, words, head, nodes, n, Goal { reach, from, size })
        }
        Aim::Reach(reach) => seek(arena, words, head, nodes, n, Goal { reach, from, size }),
        Aim::From(from) => seek(arena, words, head, nodes, n, Goal { reach, from, size }),
        Aim::Find(_, size) => seek(arena, words, head, nodes, n, Goal { reach, from, size }),
    }
}

// Whether the whole list is sound and apart from the table, by the walk from a cursor on beside the pairs from number `from` on.
fn sound_on(
    arena: Arena,
    words: &[u64],
    cursor: Cursor,
    chain: Chain,
    nodes: &[u64],
    n: usize,
    from: usize,
) -> Result<(), Refusal>
    requires ready { Ready arena (length words.now) }
    requires along { Along arena words.now chain.head.0 cursor }
    requires abreast { Abreast arena words.now chain.head.0 nodes.now n cursor from }
    ensures { result ≡ soundness_of (sound_beside arena words.now chain nodes.now n) }
{
    let mut cur = cursor;
    let mut i = from;
    while !cur.at.is_zero() {
        let Descriptor { limit, next } = list_words::range_at(arena, words, cur.low, cur.at)?;
        let Some(j) = place_beside(nodes, n, i, Range::new(cur.at, limit)) else {
            return Err(Refusal::Damaged);
        };
        i = j;
        cur = cur.on(limit, next);
    }
    cur.counts(chain)
}

// The walk of an aim that weighs each range against what it has kept.
fn weigh(
    arena: Arena,
    words: &[u64],
    chain: Chain,
    nodes: &[u64],
    n: usize,
    aim: Aim,
) -> Result<Spot, Refusal>
    requires ready { Ready arena (length words.now) }
    requires rising { Rising nodes.now n }
    ensures { result ≡ survey_beside arena words.now chain nodes.now n aim }
{
    let mut prev = Range::none();
    let mut kept = Spot::behind(prev);
    let mut cur = Cursor::start(arena, chain.head);
    let mut i: usize = 0;
    while !cur.at.is_zero() {
        let Descriptor { limit, next } = list_words::range_at(arena, words, cur.low, cur.at)?;
        let here = Range::new(cur.at, limit);
        let Some(j) = place_beside(nodes, n, i, here) else {
            return Err(Refusal::Damaged);
        };
        if aim.takes(kept.here, here) {
            kept = Spot { prev, here, next };
        }
        prev = here;
        cur = cur.on(limit, next);
        i = j;
    }
    cur.counts(chain)?;
    Ok(kept.at_end(prev))
}

// The one walk over the list of a pair: its ranges are judged and counted, each is compared with the pairs that stand around
// it, and what the aim asks for is kept. List and table are gone through once, in address order.
pub fn survey(
    arena: Arena,
    words: &[u64],
    chain: Chain,
    nodes: &[u64],
    n: usize,
    aim: Aim,
) -> Result<Spot, Refusal>
    requires ready { Ready arena (length words.now) }
    requires rising { Rising nodes.now n }
    ensures { result ≡ survey_beside arena words.now chain nodes.now n aim }
{
    if !aim.stays() {
        return weigh(arena, words, chain, nodes, n, aim);
    }
    let (spot, cur, from) = first(arena, words, chain.head, nodes, n, aim)?;
    sound_on(arena, words, cur, chain, nodes, n, from)?;
    Ok(spot)
}
