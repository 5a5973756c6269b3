// One request played, and its answer written.
ghost use Rattle.std.specs.Prelude.{[], ◌∷◌, ◌≡◌, ◌+◌, ◌≤◌, length, Some};
ghost use Rattle.units.specs.Words.{word_number};
ghost use Rattle.list_land.specs.Layout.{read_of};
ghost use Rattle.texts.specs.Decimal.{line};
ghost use Rattle.script.specs.Printed.{question, arena_turn, land_turn, on_first, arena_words, turn_of, ranges_from};
ghost use Rattle.lines.specs.declared.Request.{Request as Request·};
ghost use Rattle.script.specs.declared.Stage.{Stage as Stage·};
ghost use Rattle.script.specs.Calls.{is_describing, is_ready, tell, tell_stage};
ghost use Rattle.script.specs.inner.Feeding.{Fits, Says, Plays, Tells};

use crate::{Stage, Turn};
use lines::Request;
use list_land::{Changed, Found, ListLand};
use units::{Addr, Arena, Mode, Size, Which};

// The number of words between two addresses.
fn words_between(base: Addr, limit: Addr) -> usize
    ensures { result ≡ word_number base.0 limit.0 }
{
    if limit < base {
        return 0;
    }
    limit.word_from(base)
}

// The first n words, or all of them if there are fewer.
fn fit(n: usize, words: &[u64]) -> usize
    ensures { Fits n words.now result }
{
    n.min(words.len())
}

fn unknown(stage: Stage, out: &mut [u8], at: usize) -> Turn
    requires { at + 105 ≤ length out.old }
    ensures { Says stage question out.old at out.new result }
{
    let next = texts::put_byte(out, at, b'?');
    Turn {
        stage,
        at: texts::put_byte(out, next, b'\n'),
    }
}

// The answer of an insertion, a deletion or a walk.
fn put_change(c: Changed, out: &mut [u8], at: usize) -> Turn
    requires { at + 105 ≤ length out.old }
    ensures { Says (Stage·.Open c.land) (line (c.answer ∷ c.range.base.0 ∷ c.range.limit.0 ∷ [])) out.old at out.new result }
{
    let numbers = [c.answer, c.range.base.number(), c.range.limit.number()];
    Turn {
        stage: Stage::Open(c.land),
        at: texts::put_line(out, at, &numbers),
    }
}

// The answer of a find.
fn put_found(f: Found, out: &mut [u8], at: usize) -> Turn
    requires { at + 105 ≤ length out.old }
    ensures { Says (Stage·.Open f.land) (line (f.answer ∷ f.range.base.0 ∷ f.range.limit.0 ∷ f.old.base.0 ∷ f.old.limit.0 ∷ [])) out.old at out.new result }
{
    let (base, limit) = (f.range.base.number(), f.range.limit.number());
    let (old_base, old_limit) = (f.old.base.number(), f.old.limit.number());
    let numbers = [f.answer, base, limit, old_base, old_limit];
    Turn {
        stage: Stage::Open(f.land),
        at: texts::put_line(out, at, &numbers),
    }
}

// The first line of a description.
fn describe(land: ListLand, words: &[u64], out: &mut [u8], at: usize) -> Turn
    requires { at + 105 ≤ length out.old }
    ensures { Plays (land_turn land words.now (Some Request·.Describe)) words.now out.old at out.new result }
{
    let base = land.base;
    let met = land.walk(words, base);
    if 2 < met.answer {
        return Turn {
            stage: Stage::Open(land),
            at: texts::put_line(out, at, &[met.answer, 0, 0]),
        };
    }
    Turn {
        stage: Stage::Describing(land, base),
        at: texts::put_line(out, at, &[0, land.ranges, land.bytes.number()]),
    }
}

// A find on a land whose arena is lent whole. A call of its own, which keeps the loop over the lines short.
#[inline(never)]
fn ask_find(
    land: ListLand,
    words: &mut [u64],
    which: Which,
    size: Size,
    mode: Mode,
    out: &mut [u8],
    at: usize,
) -> Turn
    requires { at + 105 ≤ length out.old }
    ensures { Plays (land_turn land words.old (Some (Request·.Find which size mode))) words.new out.old at out.new result }
{
    put_found(land.find(words, which, size, mode), out, at)
}

// A request on a land whose arena is lent whole.
fn ask(
    land: ListLand,
    words: &mut [u64],
    request: Option<Request>,
    out: &mut [u8],
    at: usize,
) -> Turn
    requires { at + 105 ≤ length out.old }
    ensures { Plays (land_turn land words.old request) words.new out.old at out.new result }
{
    let Some(request) = request else {
        return unknown(Stage::Open(land), out, at);
    };
    let changed = match request {
        Request::Arena(..) => return unknown(Stage::Open(land), out, at),
        Request::Describe => return describe(land, words, out, at),
        Request::Find(which, size, mode) => {
            return ask_find(land, words, which, size, mode, out, at);
        }
        Request::Insert(range) => land.insert(words, range),
        Request::Delete(range) => land.delete(words, range),
        Request::Walk(from) => land.walk(words, from),
    };
    put_change(changed, out, at)
}

// The same on the first words of those that are there.
fn ask_in(
    land: ListLand,
    words: &mut [u64],
    request: Option<Request>,
    out: &mut [u8],
    at: usize,
) -> Turn
    requires { at + 105 ≤ length out.old }
    ensures { Plays (on_first (arena_words land) words.old (λ part. land_turn land part request)) words.new out.old at out.new result }
{
    let n = fit(words_between(land.base, land.limit), words);
    ask(land, &mut words[..n], request, out, at)
}

// An arena whose words are lent.
fn open(stage: Stage, arena: Arena, words: &mut [u64], out: &mut [u8], at: usize) -> Turn
    requires { at + 105 ≤ length out.old }
    ensures { Plays (arena_turn stage arena.base arena.limit arena.align words.old) words.new out.old at out.new result }
{
    let opened = ListLand::open(arena.base, arena.limit, arena.align, words);
    if opened.answer == 0 {
        words.fill(0);
        return Turn {
            stage: Stage::Open(opened.land),
            at: texts::put_line(out, at, &[0]),
        };
    }
    Turn {
        stage,
        at: texts::put_line(out, at, &[opened.answer]),
    }
}

fn open_in(stage: Stage, arena: Arena, words: &mut [u64], out: &mut [u8], at: usize) -> Turn
    requires { at + 105 ≤ length out.old }
    ensures { Plays (on_first (word_number arena.base.0 arena.limit.0) words.old (arena_turn stage arena.base arena.limit arena.align)) words.new out.old at out.new result }
{
    let n = fit(words_between(arena.base, arena.limit), words);
    open(stage, arena, &mut words[..n], out, at)
}

// The ranges from an address on, a line for each, as many as the buffer has room for.
fn lines_from(land: ListLand, words: &[u64], start: Addr, out: &mut [u8]) -> Turn
    ensures { Tells (tell land start (length out.old) (ranges_from start.0 (read_of land words.now))) out.old out.new result }
{
    let mut from = start;
    let mut at: usize = 0;
    while 42 <= out.len() - at {
        let met = land.walk(words, from);
        if met.answer != 0 {
            return Turn {
                stage: Stage::Open(land),
                at,
            };
        }
        let range = met.range;
        from = range.limit;
        at = texts::put_line(out, at, &[range.base.number(), range.limit.number()]);
    }
    Turn {
        stage: Stage::Describing(land, from),
        at,
    }
}

impl Stage {
    pub(crate) fn is_describing(self) -> bool
        ensures { result ≡ is_describing self }
    {
        matches!(self, Stage::Describing(..))
    }

    // Whether a request can be played: no description is under way, and there is room for an answer.
    pub(crate) fn is_ready(self, room: usize) -> bool
        ensures { result ≡ is_ready self room }
    {
        105 <= room && !self.is_describing()
    }

    // A request, on words of which an arena may take the first.
    pub(crate) fn play(
        self,
        words: &mut [u64],
        request: Option<Request>,
        out: &mut [u8],
        at: usize,
    ) -> Turn
        requires { at + 105 ≤ length out.old }
        ensures { Plays (turn_of self words.old request) words.new out.old at out.new result }
    {
        if let Some(Request::Arena(base, limit, align)) = request {
            return open_in(self, Arena { base, limit, align }, words, out, at);
        }
        match self {
            Stage::Closed => unknown(self, out, at),
            Stage::Open(land) | Stage::Describing(land, _) => {
                ask_in(land, words, request, out, at)
            }
        }
    }

    // What is left of a description.
    pub(crate) fn describe(self, words: &[u64], out: &mut [u8]) -> Turn
        ensures { Tells (tell_stage self words.now (length out.old)) out.old out.new result }
    {
        match self {
            Stage::Describing(land, from) => {
                let n = fit(words_between(land.base, land.limit), words);
                lines_from(land, &words[..n], from, out)
            }
            Stage::Closed | Stage::Open(_) => Turn { stage: self, at: 0 },
        }
    }
}
