// Numbers read from a text.
use std::str;

// The numbers of a text that are still to be read.
#[derive(Drop)]
pub struct Numbers<'a> {
    rest: &'a [u8],
}

impl<'a> Numbers<'a> {
    pub fn new(text: &'a [u8]) -> Self {
        Numbers { rest: text }
    }

    // The number that comes next, behind any spaces and newlines. It ends where its digits do.
    pub fn next(&mut self) -> Option<u64> {
        let start = self.rest.iter().position(|&b| b != b' ' && b != b'\n')?;
        let text = &self.rest[start..];
        let end = text.iter().position(|b| !b.is_ascii_digit());
        let (digits, rest) = text.split_at(end.unwrap_or(text.len()));
        self.rest = rest;
        str::from_utf8(digits).ok()?.parse().ok()
    }

    // The three numbers behind the words of a call.
    pub fn three(&mut self) -> Option<(u64, u64, u64)> {
        Some((self.next()?, self.next()?, self.next()?))
    }

    // A count and so many numbers, which fit in `space`, put at its start.
    pub fn counted<'b>(&mut self, space: &'b mut [u64]) -> Option<&'b mut [u64]> {
        let count = usize::try_from(self.next()?).ok()?;
        let numbers = space.get_mut(..count)?;
        for n in numbers.iter_mut() {
            *n = self.next()?;
        }
        Some(numbers)
    }
}
