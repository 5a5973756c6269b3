// Records: what each asks for, and its line.
use crate::numbers::Numbers;
use crate::outcomes::{Outcome, Show, begin_flush};
use block_land::BlockLand;
use list_land::ListLand;
use pair::Pair;
use std::io;
use units::{Addr, Align, LowWater, Mode, Range, Size};

// A call of one land.
#[derive(Clone, Copy)]
pub enum Call {
    Open,
    Insert(Range),
    Delete(Range),
    First(Size, Mode),
    Last(Size, Mode),
    Largest(Size, Mode),
    Walk(Addr),
}

// A call of the pair.
#[derive(Clone, Copy)]
pub enum PairCall {
    Insert(Range),
    Delete(Range),
    First(Size, Mode),
    Last(Size, Mode),
    Largest(Size, Mode),
}

// A record that was read, with its words.
#[derive(Drop)]
pub enum Record<'a> {
    List(ListLand, &'a mut [u64], Call),
    Block(BlockLand, &'a mut [u64], Call),
    Flush(Pair, &'a mut [u64], &'a mut [u64]),
    Pair(Pair, &'a mut [u64], &'a mut [u64], PairCall),
}

fn range_of(a: u64, b: u64) -> Range {
    Range::new(Addr::new(a), Addr::new(b))
}

fn mode_of(n: u64) -> Mode {
    match n {
        0 => Mode::None,
        1 => Mode::Low,
        2 => Mode::High,
        _ => Mode::Entire,
    }
}

// The block land of a handle in the form of a list land's.
fn block_of(handle: ListLand) -> BlockLand {
    BlockLand {
        base: handle.base,
        limit: handle.limit,
        align: handle.align,
        ranges: handle.ranges,
        bytes: handle.bytes,
        water: handle.water,
    }
}

impl Call {
    // The call of a code, with the first two of its three numbers. A code that is none of them is a walk.
    fn new(code: u64, a: u64, b: u64) -> Self {
        match code {
            0 => Call::Open,
            1 => Call::Insert(range_of(a, b)),
            2 => Call::Delete(range_of(a, b)),
            3 => Call::First(Size::new(a), mode_of(b)),
            4 => Call::Last(Size::new(a), mode_of(b)),
            5 => Call::Largest(Size::new(a), mode_of(b)),
            _ => Call::Walk(Addr::new(a)),
        }
    }

    fn on_list(self, land: ListLand, words: &mut [u64]) -> Outcome<ListLand> {
        match self {
            Call::Open => ListLand::open(land.base, land.limit, land.align, words).into(),
            Call::Insert(range) => land.insert(words, range).into(),
            Call::Delete(range) => land.delete(words, range).into(),
            Call::First(size, mode) => land.find_first(words, size, mode).into(),
            Call::Last(size, mode) => land.find_last(words, size, mode).into(),
            Call::Largest(size, mode) => land.find_largest(words, size, mode).into(),
            Call::Walk(from) => land.walk(words, from).into(),
        }
    }

    fn on_block(self, land: BlockLand, nodes: &mut [u64]) -> Outcome<BlockLand> {
        match self {
            Call::Open => BlockLand::open(land.base, land.limit, land.align, nodes).into(),
            Call::Insert(range) => land.insert(nodes, range).into(),
            Call::Delete(range) => land.delete(nodes, range).into(),
            Call::First(size, mode) => land.find_first(nodes, size, mode).into(),
            Call::Last(size, mode) => land.find_last(nodes, size, mode).into(),
            Call::Largest(size, mode) => land.find_largest(nodes, size, mode).into(),
            Call::Walk(from) => land.walk(nodes, from).into(),
        }
    }
}

impl PairCall {
    // The same for the pair. A code that is none of them is a find of the largest.
    fn new(code: u64, a: u64, b: u64) -> Self {
        match code {
            31 => PairCall::Insert(range_of(a, b)),
            32 => PairCall::Delete(range_of(a, b)),
            33 => PairCall::First(Size::new(a), mode_of(b)),
            34 => PairCall::Last(Size::new(a), mode_of(b)),
            _ => PairCall::Largest(Size::new(a), mode_of(b)),
        }
    }

    fn on(self, pair: Pair, words: &mut [u64], nodes: &mut [u64]) -> Outcome<Pair> {
        match self {
            PairCall::Insert(range) => pair.insert(words, nodes, range).into(),
            PairCall::Delete(range) => pair.delete(words, nodes, range).into(),
            PairCall::First(size, mode) => pair.find_first(words, nodes, size, mode).into(),
            PairCall::Last(size, mode) => pair.find_last(words, nodes, size, mode).into(),
            PairCall::Largest(size, mode) => pair.find_largest(words, nodes, size, mode).into(),
        }
    }
}

impl Numbers<'_> {
    fn handle(&mut self) -> Option<ListLand> {
        Some(ListLand {
            base: Addr::new(self.next()?),
            limit: Addr::new(self.next()?),
            align: Align::new(self.next()?),
            head: Addr::new(self.next()?),
            ranges: self.next()?,
            bytes: Size::new(self.next()?),
            water: LowWater {
                filled: self.next()?,
                low: Size::new(self.next()?),
            },
        })
    }

    fn call(&mut self, code: u64) -> Option<Call> {
        let (a, b, _) = self.three()?;
        Some(Call::new(code, a, b))
    }

    // The record that comes next, with its words and node words in what is lent.
    pub fn record<'a>(&mut self, words: &'a mut [u64], nodes: &'a mut [u64]) -> Option<Record<'a>> {
        let code = self.next()?;
        let list = self.handle()?;
        let words = self.counted(words)?;
        match code {
            0..=9 => Some(Record::List(list, words, self.call(code)?)),
            10..=19 => {
                let call = self.call(code - 10)?;
                Some(Record::Block(block_of(list), words, call))
            }
            _ => self.both(code, list, words, nodes),
        }
    }

    // The rest of a flush or of a record of the pair, from the block land's numbers on.
    fn both<'a>(
        &mut self,
        code: u64,
        list: ListLand,
        words: &'a mut [u64],
        nodes: &'a mut [u64],
    ) -> Option<Record<'a>> {
        self.next()?;
        let block = block_of(self.handle()?);
        let pair = Pair { list, block };
        let nodes = self.counted(nodes)?;
        if code == 20 {
            return Some(Record::Flush(pair, words, nodes));
        }
        let (a, b, _) = self.three()?;
        Some(Record::Pair(pair, words, nodes, PairCall::new(code, a, b)))
    }
}

impl Record<'_> {
    // The call of the record, and its line: what it returned, the node words and the arena words.
    pub fn play<R: Print>(self, rt: &R) -> io::Result<()> {
        match self {
            Record::List(land, words, call) => {
                call.on_list(land, words).begin(rt)?;
                (&*words).show(rt)?;
            }
            Record::Block(land, nodes, call) => {
                call.on_block(land, nodes).begin(rt)?;
                (&*nodes).show(rt)?;
            }
            Record::Flush(pair, words, nodes) => {
                let flushed = flush::flush(pair.list, words, pair.block, nodes);
                begin_flush(&flushed, rt)?;
                (&*nodes).show(rt)?;
                (&*words).show(rt)?;
            }
            Record::Pair(pair, words, nodes, call) => {
                call.on(pair, words, nodes).begin(rt)?;
                (&*nodes).show(rt)?;
                (&*words).show(rt)?;
            }
        }
        println!(rt)
    }
}
