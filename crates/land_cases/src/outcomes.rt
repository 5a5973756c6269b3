// What a call returned, and how it is printed.
use block_land::BlockLand;
use flush::Flushed;
use list_land::ListLand;
use pair::Pair;
use std::io;
use units::{Addr, Range, Size};

// Numbers that are printed, each behind a space and by a call of its own: std tries a write that is interrupted so often for
// each call.
pub trait Show {
    fn show<R: Print>(&self, rt: &R) -> io::Result<()>;
}

impl Show for u64 {
    fn show<R: Print>(&self, rt: &R) -> io::Result<()> {
        print!(rt; " {self}")
    }
}

impl Show for &[u64] {
    fn show<R: Print>(&self, rt: &R) -> io::Result<()> {
        for n in *self {
            n.show(rt)?;
        }
        Ok(())
    }
}

impl Show for Addr {
    fn show<R: Print>(&self, rt: &R) -> io::Result<()> {
        self.number().show(rt)
    }
}

impl Show for Size {
    fn show<R: Print>(&self, rt: &R) -> io::Result<()> {
        self.number().show(rt)
    }
}

impl Show for Range {
    fn show<R: Print>(&self, rt: &R) -> io::Result<()> {
        self.base.show(rt)?;
        self.limit.show(rt)
    }
}

impl Show for ListLand {
    fn show<R: Print>(&self, rt: &R) -> io::Result<()> {
        self.base.show(rt)?;
        self.limit.show(rt)?;
        self.align.number().show(rt)?;
        self.head.show(rt)?;
        self.ranges.show(rt)?;
        self.bytes.show(rt)?;
        self.water.filled.show(rt)?;
        self.water.low.show(rt)
    }
}

// In the form of a list land's handle, with head 0.
impl Show for BlockLand {
    fn show<R: Print>(&self, rt: &R) -> io::Result<()> {
        let land = ListLand {
            base: self.base,
            limit: self.limit,
            align: self.align,
            head: Addr::new(0),
            ranges: self.ranges,
            bytes: self.bytes,
            water: self.water,
        };
        land.show(rt)
    }
}

impl Show for Pair {
    fn show<R: Print>(&self, rt: &R) -> io::Result<()> {
        self.list.show(rt)?;
        self.block.show(rt)
    }
}

// The answer, the next handle or handles, and the two ranges of a find. Other calls return one range or none.
#[derive(Clone, Copy)]
pub struct Outcome<H> {
    answer: u64,
    handle: H,
    range: Range,
    old: Range,
}

impl<H: Show> Outcome<H> {
    // The answer begins a line.
    pub fn begin<R: Print>(&self, rt: &R) -> io::Result<()> {
        print!(rt; "{}", self.answer)?;
        self.handle.show(rt)?;
        self.range.show(rt)?;
        self.old.show(rt)
    }
}

// The answer of a flush begins a line; the number moved, the stop and the two handles.
pub fn begin_flush<R: Print>(flushed: &Flushed, rt: &R) -> io::Result<()> {
    print!(rt; "{}", flushed.answer)?;
    flushed.moved.show(rt)?;
    flushed.stop.show(rt)?;
    flushed.list.show(rt)?;
    flushed.block.show(rt)
}

impl<H> Outcome<H> {
    fn opened(handle: H, answer: u64) -> Self {
        Outcome::changed(handle, answer, Range::none())
    }

    fn changed(handle: H, answer: u64, range: Range) -> Self {
        Outcome {
            answer,
            handle,
            range,
            old: Range::none(),
        }
    }
}

impl From<list_land::Opened> for Outcome<ListLand> {
    fn from(opened: list_land::Opened) -> Self {
        Outcome::opened(opened.land, opened.answer)
    }
}

impl From<list_land::Changed> for Outcome<ListLand> {
    fn from(changed: list_land::Changed) -> Self {
        Outcome::changed(changed.land, changed.answer, changed.range)
    }
}

impl From<list_land::Found> for Outcome<ListLand> {
    fn from(found: list_land::Found) -> Self {
        Outcome {
            answer: found.answer,
            handle: found.land,
            range: found.range,
            old: found.old,
        }
    }
}

impl From<block_land::Opened> for Outcome<BlockLand> {
    fn from(opened: block_land::Opened) -> Self {
        Outcome::opened(opened.land, opened.answer)
    }
}

impl From<block_land::Changed> for Outcome<BlockLand> {
    fn from(changed: block_land::Changed) -> Self {
        Outcome::changed(changed.land, changed.answer, changed.range)
    }
}

impl From<block_land::Found> for Outcome<BlockLand> {
    fn from(found: block_land::Found) -> Self {
        Outcome {
            answer: found.answer,
            handle: found.land,
            range: found.range,
            old: found.old,
        }
    }
}

impl From<pair::Changed> for Outcome<Pair> {
    fn from(changed: pair::Changed) -> Self {
        Outcome::changed(changed.pair, changed.answer, changed.range)
    }
}

impl From<pair::Found> for Outcome<Pair> {
    fn from(found: pair::Found) -> Self {
        Outcome {
            answer: found.answer,
            handle: found.pair,
            range: found.range,
            old: found.old,
        }
    }
}
