// How a list of ranges is edited at a spot that is known: a range put in, and a part taken out.
//
// Every function here is proved, and the crate assumes nothing of its own. These are inner functions: a `requires`
// says what the calls of the land have checked before.
#![tactic(auto)]

mod placing;

ghost use Rattle.std.specs.Prelude.{true, false, ◌≡◌, length};
ghost use Rattle.model.specs.Marks.{rng};
ghost use Rattle.model.specs.inner.Lists.{overlaps};
ghost use Rattle.units.specs.declared.aims.Aim.{Aim};
ghost use Rattle.list_words.specs.Laying.{describe};
ghost use Rattle.list_edits.specs.inner.Edits.{Room, PieceRoom, piece_head, piece_words, EditRoom, store_head, store_words};
ghost use Rattle.list_edits.specs.inner.Joins.{join_edit, Putting, join_done};
ghost use Rattle.list_edits.specs.inner.Chains.{met_of, Held, may_ask, Holding, joined_of, joined_words, put_of, put_words, cut_chain, cut_words, cut_of, cut_out_words};

use list_words::{Chain, Spot};
use units::{Addr, Arena, Range, Refusal};

// What is to stand behind a range: low, then high, each if it is not empty, then the range at next.
#[derive(Clone, Copy)]
pub struct Edit {
    pub prev: Range,
    pub low: Range,
    pub high: Range,
    pub next: Addr,
}

// The place of a range: behind `prev` and before the range at `next` it becomes `fresh`, joined with as many neighbours as
// `joins` says. A range that overlaps one of the list has none.
#[derive(Clone, Copy)]
pub struct Join {
    pub prev: Range,
    pub fresh: Range,
    pub next: Addr,
    pub joins: u64,
}

// A range put in or taken out: the chain afterwards, and the range that holds it, or held it before.
#[derive(Clone, Copy)]
pub struct ChainJoined {
    pub chain: Chain,
    pub range: Range,
}

// Writes the descriptor of a range with the next range's base.
fn lay(words: &mut [u64], start: Addr, range: Range, next: Addr)
    requires { Room start.0 (length words.old) range.base.0 range.limit.0 next.0 }
    ensures { words.new ≡ describe start.0 (rng range.base.0 range.limit.0) next.0 words.old }
{
    let i = range.base.word_from(start);
    if range.is_grain() {
        words[i] = next.tagged_word();
    } else {
        words[i] = next.number();
        words[i + 1] = range.limit.number();
    }
}

// Writes a range before the one at `next`, if it is not empty, and hands back the base that then comes first.
fn piece(words: &mut [u64], start: Addr, range: Range, next: Addr) -> Addr
    requires { PieceRoom start.0 (length words.old) range next.0 }
    ensures { (result ≡ piece_head range next) × (words.new ≡ piece_words start.0 words.old range next.0) }
{
    if range.limit <= range.base {
        return next;
    }
    lay(words, start, range, next);
    range.base
}

// Writes an edit of a list with this head, and hands back the head.
fn store(words: &mut [u64], start: Addr, head: Addr, edit: Edit) -> Addr
    requires { EditRoom start.0 (length words.old) edit }
    ensures { (result ≡ store_head head edit) × (words.new ≡ store_words start.0 words.old edit) }
{
    let Edit {
        prev,
        low,
        high,
        next,
    } = edit;
    let upper = piece(words, start, high, next);
    let first = piece(words, start, low, upper);
    if prev.base.is_zero() {
        return first;
    }
    lay(words, start, prev, first);
    head
}

// Writes the place of a range.
fn put(words: &mut [u64], start: Addr, chain: Chain, range: Range, place: Join) -> ChainJoined
    requires { Putting start.0 (length words.old) chain range place }
    ensures { (result ≡ join_done chain range place) × (words.new ≡ store_words start.0 words.old (join_edit place)) }
{
    let Join {
        prev,
        fresh,
        next,
        joins,
    } = place;
    let edit = Edit {
        prev,
        low: fresh,
        high: Range::new(fresh.limit, fresh.limit),
        next,
    };
    let bytes = chain.bytes.plus(range.size());
    let ranges = chain.ranges + 1 - joins;
    let head = store(words, start, chain.head, edit);
    ChainJoined {
        chain: Chain {
            head,
            ranges,
            bytes,
        },
        range: fresh,
    }
}

// Puts a range into a sound list that it does not overlap, joined with the ranges that it touches, at the first range that
// reaches its base.
pub fn join_at(
    arena: Arena,
    words: &mut [u64],
    chain: Chain,
    range: Range,
    spot: Spot,
) -> ChainJoined
    requires held { Held arena words.old chain (Aim.Reach range.base) spot }
    requires range_value { may_ask arena range ≡ true }
    requires chain_value { overlaps range.base.0 range.limit.0 (met_of arena words.old chain) ≡ false }
    ensures { (result ≡ joined_of (met_of arena words.old chain) range) × (words.new ≡ joined_words (met_of arena words.old chain) range arena.base.0 words.old) }
{
    let place = placing::place(arena, words, range, spot).unwrap();
    put(words, arena.base, chain, range, place)
}

// The same for a range that may overlap one of the list: then it is refused.
pub fn put_at(
    arena: Arena,
    words: &mut [u64],
    chain: Chain,
    range: Range,
    spot: Spot,
) -> Result<ChainJoined, Refusal>
    requires held { Held arena words.old chain (Aim.Reach range.base) spot }
    requires range_value { may_ask arena range ≡ true }
    ensures { (result ≡ put_of (met_of arena words.old chain) range) × (words.new ≡ put_words (met_of arena words.old chain) range arena.base.0 words.old) }
{
    let Some(place) = placing::place(arena, words, range, spot) else {
        return Err(Refusal::Overlap);
    };
    Ok(put(words, arena.base, chain, range, place))
}

// Whether a range overlaps one of a sound list, by the first range that reaches its base. Where none does, none overlaps.
pub fn overlaps_at(arena: Arena, words: &[u64], chain: Chain, range: Range, spot: Spot) -> bool
    requires held { Held arena words.now chain (Aim.Reach range.base) spot }
    requires range_value { may_ask arena range ≡ true }
    ensures { result ≡ overlaps range.base.0 range.limit.0 (met_of arena words.now chain) }
{
    if spot.here.base.is_zero() {
        return false;
    }
    placing::place(arena, words, range, spot).is_none()
}

// Takes a part out of the range at a spot of a sound list, and hands back the chain of what is left.
pub fn cut_at(arena: Arena, words: &mut [u64], chain: Chain, spot: Spot, part: Range) -> Chain
    requires { Holding arena words.old chain spot part }
    ensures { (result ≡ cut_chain (met_of arena words.old chain) part) × (words.new ≡ cut_words (met_of arena words.old chain) part arena.base.0 words.old) }
{
    let Spot { prev, here, next } = spot;
    let low = Range::new(here.base, part.base);
    let high = Range::new(part.limit, here.limit);
    let edit = Edit {
        prev,
        low,
        high,
        next,
    };
    let ranges = chain.ranges - 1 + low.pieces() + high.pieces();
    let bytes = chain.bytes.minus(part.size());
    let head = store(words, arena.base, chain.head, edit);
    Chain {
        head,
        ranges,
        bytes,
    }
}

// Takes a range out of the range of a sound list that holds it, at the first range that reaches its limit. Where none holds it
// it is refused.
pub fn cut_out(
    arena: Arena,
    words: &mut [u64],
    chain: Chain,
    range: Range,
    spot: Spot,
) -> Result<ChainJoined, Refusal>
    requires held { Held arena words.old chain (Aim.Reach range.limit) spot }
    requires range_value { may_ask arena range ≡ true }
    ensures { (result ≡ cut_of (met_of arena words.old chain) range) × (words.new ≡ cut_out_words (met_of arena words.old chain) range arena.base.0 words.old) }
{
    let here = spot.here;
    if here.base.is_zero() {
        return Err(Refusal::Overlap);
    }
    if range.base < here.base {
        return Err(Refusal::Overlap);
    }
    let left = cut_at(arena, words, chain, spot, range);
    Ok(ChainJoined {
        chain: left,
        range: here,
    })
}
