// Lines of bytes read as requests, byte by byte: a line may have any length.
//
// Every function here is proved, and the crate assumes nothing of its own.
#![tactic(auto)]

mod forms;

ghost use Rattle.std.specs.Prelude.{◌≡◌, ◌≤◌, ◌<◌, length};
ghost use Rattle.lines.specs.inner.Reading.{with_digit, name_with, number_with, grown, with_field, at_start, next_of, request_in, begun_in, ReadTo};

use units::{Addr, Align, Mode, Range, Size, Which};

// What the bytes of a field are: none yet, a name, a number, or neither. A name has at most eight letters, and stands as
// a number to the base 256.
#[derive(Clone, Copy, Debug)]
pub enum Field {
    Empty,
    Name(u64),
    Number(u64),
    Neither,
}

// The fields of a line that have ended. No form has more than four.
#[derive(Clone, Copy, Debug)]
pub enum Line {
    Zero,
    One(Field),
    Two(Field, Field),
    Three(Field, Field, Field),
    Four(Field, Field, Field, Field),
    More,
}

// A line that is being read: the fields that have ended, and the one that has not.
#[derive(Clone, Copy, Debug)]
pub struct Reader {
    pub line: Line,
    pub field: Field,
}

// A reader after some bytes, and the position after them.
#[derive(Clone, Copy, Debug)]
pub struct Read {
    pub reader: Reader,
    pub at: usize,
}

// What a line of one of the forms asks for.
#[derive(Clone, Copy)]
pub enum Request {
    Arena(Addr, Addr, Align),
    Insert(Range),
    Delete(Range),
    Find(Which, Size, Mode),
    Walk(Addr),
    Describe,
}

// A number with one digit more, unless it would pass 2^64 - 1.
fn with_digit(base: u64, value: u64, digit: u64) -> Option<u64>
    requires { 0 < base }
    ensures { result ≡ with_digit base value digit }
{
    if (u64::MAX - digit) / base < value {
        return None;
    }
    Some(value * base + digit)
}

fn name_with(name: u64, b: u8) -> Field
    ensures { result ≡ name_with name b }
{
    if !b.is_ascii_lowercase() {
        return Field::Neither;
    }
    with_digit(256, name, u64::from(b)).map_or(Field::Neither, Field::Name)
}

fn number_with(value: u64, b: u8) -> Field
    ensures { result ≡ number_with value b }
{
    if !b.is_ascii_digit() {
        return Field::Neither;
    }
    with_digit(10, value, u64::from(b - b'0')).map_or(Field::Neither, Field::Number)
}

impl Field {
    // The field with one byte more.
    pub fn with(self, b: u8) -> Field
        ensures { result ≡ grown self b }
    {
        match self {
            Field::Empty if b.is_ascii_lowercase() => name_with(0, b),
            Field::Empty => number_with(0, b),
            Field::Name(name) => name_with(name, b),
            Field::Number(value) => number_with(value, b),
            Field::Neither => Field::Neither,
        }
    }
}

impl Line {
    // The line with one field more.
    pub fn with(self, field: Field) -> Line
        ensures { result ≡ with_field self field }
    {
        match self {
            Line::Zero => Line::One(field),
            Line::One(w) => Line::Two(w, field),
            Line::Two(w, x) => Line::Three(w, x, field),
            Line::Three(w, x, y) => Line::Four(w, x, y, field),
            Line::Four(..) | Line::More => Line::More,
        }
    }
}

impl Reader {
    // A line of which no byte has come.
    pub fn new() -> Self
        ensures { result ≡ at_start }
    {
        Reader {
            line: Line::Zero,
            field: Field::Empty,
        }
    }

    // One byte of the line.
    pub fn next(self, b: u8) -> Reader
        ensures { result ≡ next_of self b }
    {
        if b == b' ' {
            return Reader {
                line: self.line.with(self.field),
                field: Field::Empty,
            };
        }
        Reader {
            line: self.line,
            field: self.field.with(b),
        }
    }

    // The bytes from a position on, up to a newline or the end.
    pub fn read(self, bytes: &[u8], from: usize) -> Read
        requires { from ≤ length bytes.now }
        ensures { ReadTo self bytes.now from result }
    {
        let mut reader = self;
        for at in from..bytes.len() {
            let b = bytes[at];
            if b == b'\n' {
                return Read { reader, at };
            }
            reader = reader.next(b);
        }
        Read {
            reader,
            at: bytes.len(),
        }
    }

    // What the line asks for, if it ends here and has a form.
    pub fn request(self) -> Option<Request>
        ensures { result ≡ request_in self }
    {
        self.line.with(self.field).request()
    }

    // Whether a byte of the line has come.
    pub fn begun(self) -> bool
        ensures { result ≡ begun_in self }
    {
        !matches!((self.line, self.field), (Line::Zero, Field::Empty))
    }
}
