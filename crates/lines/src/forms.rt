// The forms of a line: which fields make which request.
ghost use Rattle.std.specs.Prelude.{◌≡◌, [], ◌∷◌};
ghost use Rattle.lines.specs.Requests.{request_of, mode_of, range_form, find_form, arena_form};
ghost use Rattle.lines.specs.inner.Reading.{name_in, number_in, fields_in};
ghost use Rattle.lines.specs.inner.Parts.{bounds_of};

use crate::{Field, Line, Request};
use units::{Addr, Align, Mode, Range, Size, Which};

// The names, each byte of the number a letter.
const ARENA: u64 = 0x6172656e61;

const INSERT: u64 = 0x696e73657274;

const DELETE: u64 = 0x64656c657465;

const FIRST: u64 = 0x6669727374;

const LAST: u64 = 0x6c617374;

const LARGEST: u64 = 0x6c617267657374;

const WALK: u64 = 0x77616c6b;

const DESCRIBE: u64 = 0x6465736372696265;

const NONE: u64 = 0x6e6f6e65;

const LOW: u64 = 0x6c6f77;

const HIGH: u64 = 0x68696768;

const ENTIRE: u64 = 0x656e74697265;

impl Field {
    fn number(self) -> Option<u64>
        ensures { result ≡ number_in self }
    {
        match self {
            Field::Number(value) => Some(value),
            _ => None,
        }
    }

    // The mode that the field names.
    fn mode(self) -> Option<Mode>
        ensures { result ≡ mode_of name_in number_in self }
    {
        match self {
            Field::Name(NONE) => Some(Mode::None),
            Field::Name(LOW) => Some(Mode::Low),
            Field::Name(HIGH) => Some(Mode::High),
            Field::Name(ENTIRE) => Some(Mode::Entire),
            _ => None,
        }
    }
}

// The range of two numbers.
fn range_of(x: Field, y: Field) -> Option<Range>
    ensures { result ≡ bounds_of (number_in x) (number_in y) }
{
    Some(Range::new(Addr::new(x.number()?), Addr::new(y.number()?)))
}

// A find with its size and its mode.
fn finding(which: Which, x: Field, y: Field) -> Option<Request>
    ensures { result ≡ find_form which (number_in x) (mode_of name_in number_in y) }
{
    Some(Request::Find(which, Size::new(x.number()?), y.mode()?))
}

// arena with its range and its alignment.
fn arena(x: Field, y: Field, z: Field) -> Option<Request>
    ensures { result ≡ arena_form (number_in x) (number_in y) (number_in z) }
{
    let base = Addr::new(x.number()?);
    let limit = Addr::new(y.number()?);
    Some(Request::Arena(base, limit, Align::new(z.number()?)))
}

// A line of one field.
fn of_one(w: Field) -> Option<Request>
    ensures { result ≡ request_of name_in number_in (w ∷ []) }
{
    match w {
        Field::Name(DESCRIBE) => Some(Request::Describe),
        _ => None,
    }
}

fn of_two(w: Field, x: Field) -> Option<Request>
    ensures { result ≡ request_of name_in number_in (w ∷ x ∷ []) }
{
    match w {
        Field::Name(WALK) => Some(Request::Walk(Addr::new(x.number()?))),
        _ => None,
    }
}

fn of_three(w: Field, x: Field, y: Field) -> Option<Request>
    ensures { result ≡ request_of name_in number_in (w ∷ x ∷ y ∷ []) }
{
    match w {
        Field::Name(INSERT) => Some(Request::Insert(range_of(x, y)?)),
        Field::Name(DELETE) => Some(Request::Delete(range_of(x, y)?)),
        Field::Name(FIRST) => finding(Which::First, x, y),
        Field::Name(LAST) => finding(Which::Last, x, y),
        Field::Name(LARGEST) => finding(Which::Largest, x, y),
        _ => None,
    }
}

fn of_four(w: Field, x: Field, y: Field, z: Field) -> Option<Request>
    ensures { result ≡ request_of name_in number_in (w ∷ x ∷ y ∷ z ∷ []) }
{
    match w {
        Field::Name(ARENA) => arena(x, y, z),
        _ => None,
    }
}

impl Line {
    // What a line of these fields asks for, if it has a form.
    pub(crate) fn request(self) -> Option<Request>
        ensures { result ≡ request_of name_in number_in (fields_in self) }
    {
        match self {
            Line::One(w) => of_one(w),
            Line::Two(w, x) => of_two(w, x),
            Line::Three(w, x, y) => of_three(w, x, y),
            Line::Four(w, x, y, z) => of_four(w, x, y, z),
            Line::Zero | Line::More => None,
        }
    }
}
