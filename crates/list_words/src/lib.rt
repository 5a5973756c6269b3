// The words of the list land: a descriptor read, and the one walk over all of them.
//
// Every function here is proved, and the crate assumes nothing of its own. These are inner functions: a `requires`
// says what the calls of the land have checked before.
#![tactic(auto)]

pub mod cursor;
mod seeks;

ghost use Rattle.std.specs.Prelude.{◌≡◌, ◌≤◌, length};
ghost use Rattle.units.specs.declared.refusals.Refusal.{Refusal};
ghost use Rattle.units.specs.inner.Aims.{none_range};
ghost use Rattle.units.specs.Words.{addr};
ghost use Rattle.list_words.specs.Words.{range_at};
ghost use Rattle.list_words.specs.inner.Descriptors.{Standing, descriptor_at};
ghost use Rattle.list_words.specs.inner.Surveys.{Ready, spot, at_end, survey_of};

use cursor::Cursor;
use units::{Addr, Aim, Arena, Range, Refusal, Size};

// Why the words say nothing of a range at an address: none may begin there, or what stands there is no descriptor.
#[derive(Clone, Copy, Debug, PartialEq, Eq)]
pub enum Fault {
    Base,
    Descriptor,
}

impl From<Fault> for Refusal {
    ghost from_gives = { λ _ e. e ≡ Refusal.Damaged };

    fn from(_fault: Fault) -> Refusal {
        Refusal::Damaged
    }
}

// What the descriptor of a range says: its limit, and the base of the next range, or 0.
#[derive(Clone, Copy)]
pub struct Descriptor {
    pub limit: Addr,
    pub next: Addr,
}

// A range of the list, with the range before it and the base of the one after it. Where there is none: (0, 0), and 0.
#[derive(Clone, Copy)]
pub struct Spot {
    pub prev: Range,
    pub here: Range,
    pub next: Addr,
}

// The head of a list, and the number of its ranges and their bytes as the handle has them.
#[derive(Clone, Copy)]
pub struct Chain {
    pub head: Addr,
    pub ranges: u64,
    pub bytes: Size,
}

impl Spot {
    // No range, behind the range `last`.
    pub fn behind(last: Range) -> Spot
        ensures { result ≡ spot last none_range (addr 0) }
    {
        Spot {
            prev: last,
            here: Range::none(),
            next: Addr::new(0),
        }
    }

    // What is kept at the end of a walk, behind its last range where it is none.
    pub fn at_end(self, last: Range) -> Spot
        ensures { result ≡ at_end last self }
    {
        if self.here.base.is_zero() {
            return Spot::behind(last);
        }
        self
    }
}

// What the words say of a range at `at`, where none may begin below `low`.
pub fn range_at(arena: Arena, words: &[u64], low: Addr, at: Addr) -> Result<Descriptor, Fault>
    requires ready { Ready arena (length words.now) }
    requires base_le_low { arena.base.0 ≤ low.0 }
    ensures { result ≡ range_at arena.base.0 arena.limit.0 arena.align.0 words.now low.0 at.0 }
{
    if !arena.may_begin(low, at) {
        return Err(Fault::Base);
    }
    let i = arena.word_at(at);
    let w = words[i];
    if units::is_tagged(w) {
        let end = at.plus(Size::new(8));
        if !arena.may_end(end) {
            return Err(Fault::Descriptor);
        }
        return Ok(Descriptor {
            limit: end,
            next: units::untagged(w),
        });
    }
    let least = at.plus(Size::new(16));
    if arena.limit < least {
        return Err(Fault::Descriptor);
    }
    let end = Addr::new(words[i + 1]);
    if end < least {
        return Err(Fault::Descriptor);
    }
    if !arena.may_end(end) {
        return Err(Fault::Descriptor);
    }
    Ok(Descriptor {
        limit: end,
        next: units::untagged(w),
    })
}

// The descriptor at the base of a range of a sound list: nothing is tested.
pub fn descriptor_at(arena: Arena, words: &[u64], at: Addr) -> Descriptor
    requires { Standing arena words.now at.0 }
    ensures { result ≡ descriptor_at arena words.now at.0 }
{
    let i = at.word_from(arena.base);
    let first = words[i];
    let next = units::untagged(first);
    if units::is_tagged(first) {
        let limit = at.plus(Size::new(8));
        return Descriptor { limit, next };
    }
    let limit = Addr::new(words[i + 1]);
    Descriptor { limit, next }
}

// The walk of an aim that weighs each range against what it has kept.
fn weigh(arena: Arena, words: &[u64], chain: Chain, aim: Aim) -> Result<Spot, Refusal>
    requires { Ready arena (length words.now) }
    ensures { result ≡ survey_of arena words.now chain aim }
{
    let mut prev = Range::none();
    let mut kept = Spot::behind(prev);
    let mut cur = Cursor::start(arena, chain.head);
    while !cur.at.is_zero() {
        let Descriptor { limit, next } = range_at(arena, words, cur.low, cur.at)?;
        let here = Range::new(cur.at, limit);
        if aim.takes(kept.here, here) {
            kept = Spot { prev, here, next };
        }
        prev = here;
        cur = cur.on(limit, next);
    }
    cur.counts(chain)?;
    Ok(kept.at_end(prev))
}

// The one walk over the whole list, from head to its end: the range aimed at (none, behind the last range, where there is none).
pub fn survey(arena: Arena, words: &[u64], chain: Chain, aim: Aim) -> Result<Spot, Refusal>
    requires { Ready arena (length words.now) }
    ensures { result ≡ survey_of arena words.now chain aim }
{
    if !aim.stays() {
        return weigh(arena, words, chain, aim);
    }
    let (spot, cur) = seeks::first(arena, words, chain.head, aim)?;
    cur.sound_on(arena, words, chain)?;
    Ok(spot)
}
