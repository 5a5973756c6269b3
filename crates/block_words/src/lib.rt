// The words of the block land: a pair read, the table judged, and what an aim keeps of it.
//
// Every function here is proved, and the crate assumes nothing of its own. These are inner functions: a `requires`
// says what the calls of the land have checked before.
#![tactic(auto)]

pub mod seeks;
mod sweep;

ghost use Rattle.std.specs.Prelude.{◌≡◌, ◌*◌, ◌/◌, ◌<◌, ◌≤◌, length, drop};
ghost use Rattle.units.specs.inner.Parts.{soundness_of};
ghost use Rattle.block_words.specs.Words.{all_zero, sound_table};
ghost use Rattle.block_words.specs.inner.Tallies.{pair_at, Ready};
ghost use Rattle.block_words.specs.inner.Surveys.{tidy, survey_of};

use units::{Addr, Aim, Arena, Range, Refusal, Size};

// A range of the table and its number. Where there is none: (0, 0), and the number of ranges.
#[derive(Clone, Copy)]
pub struct Entry {
    pub number: usize,
    pub here: Range,
}

// Range number i.
pub fn pair_at(words: &[u64], i: usize) -> Range
    requires { i < length words.now / 2 }
    ensures { result ≡ pair_at words.now i }
{
    let base = Addr::new(words[2 * i]);
    let limit = Addr::new(words[2 * i + 1]);
    Range::new(base, limit)
}

// Whether every pair word from pair n on is 0: all are OR-ed and tested at the end, so that the compiler takes several a turn.
#[tactic(auto, using(crate::proofs::Zeros::zero_ways))]
fn is_zero(words: &[u64], n: usize) -> bool
    requires { n ≤ length words.now / 2 }
    ensures { result ≡ all_zero (drop (2 * n) words.now) }
{
    let end = words.len() / 2 * 2;
    let mut bits: u64 = 0;
    for word in &words[2 * n..end] {
        bits |= *word;
    }
    bits == 0
}

// Whether there is room for so many ranges, and every pair word behind them is 0.
fn tidy(words: &[u64], ranges: u64) -> Result<(), Refusal>
    ensures { result ≡ soundness_of (tidy words.now ranges) }
{
    let m = words.len() / 2;
    if (m as u64) < ranges {
        return Err(Refusal::Damaged);
    }
    if !is_zero(words, ranges as usize) {
        return Err(Refusal::Damaged);
    }
    Ok(())
}

// Whether the table is sound, where the handle has so many ranges and bytes: the zeros behind the pairs, then the pairs.
pub fn sound(arena: Arena, words: &[u64], ranges: u64, bytes: Size) -> Result<(), Refusal>
    requires { Ready arena }
    ensures { result ≡ soundness_of (sound_table arena.base.0 arena.limit.0 arena.align.0 words.now ranges bytes.0) }
{
    tidy(words, ranges)?;
    sweep::judge(arena, words, ranges as usize, bytes)
}

// What is found of the whole table: damage, or what the aim keeps.
pub fn survey(
    arena: Arena,
    words: &[u64],
    ranges: u64,
    bytes: Size,
    aim: Aim,
) -> Result<Entry, Refusal>
    requires { Ready arena }
    ensures { result ≡ survey_of arena words.now ranges bytes aim }
{
    sound(arena, words, ranges, bytes)?;
    Ok(seeks::entry(words, ranges as usize, aim))
}
