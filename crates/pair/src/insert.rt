// Insert: the list flushed into the block land, then the range into the block land, and where it has no room into the list.
ghost use Rattle.std.specs.Prelude.{◌≡◌, Ok};
ghost use Rattle.list_land.specs.inner.Parts.{reach_base};
ghost use Rattle.block_words.specs.inner.Surveys as places;
ghost use Rattle.flush.specs.Flush.{check_of};
ghost use Rattle.pair.specs.Calls.{changed, inserted};
ghost use Rattle.pair.specs.inner.Parts.{Checked};
ghost use Rattle.pair.specs.inner.Inserts.{flushed_counts, flushed_nodes, closed_by, Roomless, Open, enter_list, enter_words, entered, entered_words, entered_nodes, taken_in, Wanted, Bare, Preparable};

use crate::{Changed, Pair, refused};
use block_words::{Entry, seeks};
use list_words::{Chain, Spot};
use units::{Aim, Range, Refusal, Size};

// What an insert works on until it closes both handles: the chain of the list, the ranges and the bytes of the table.
#[derive(Clone, Copy)]
pub struct Counts {
    pub chain: Chain,
    pub ranges: u64,
    pub bytes: Size,
}

// The counts after a flush, and the place of a range in the table.
#[derive(Clone, Copy)]
pub struct Prepared {
    pub counts: Counts,
    pub place: usize,
}

// The counts with a range put in, and the isolated range that then contains it.
#[derive(Clone, Copy)]
pub struct Entered {
    pub counts: Counts,
    pub range: Range,
}

impl Pair {
    // The list's ranges moved into the block land, until none is left or one has no room. No arena word changes.
    fn flushed(self, words: &[u64], nodes: &mut [u64]) -> Counts
        requires { check_of self.list words.now self.block nodes.old ≡ Ok tt }
        ensures { (result ≡ flushed_counts self words.now nodes.old) × (nodes.new ≡ flushed_nodes self words.now nodes.old) }
    {
        let list = self.list;
        let block = self.block;
        let done = transfers::transfer(list.arena(), words, list.head, nodes, block.ranges);
        Counts {
            chain: Chain {
                head: done.at,
                ranges: list.ranges - done.moved,
                bytes: list.bytes.minus(done.bytes),
            },
            ranges: done.count,
            bytes: block.bytes.plus(done.bytes),
        }
    }

    // Into the list, where `spot` is that of the list before it was flushed.
    fn enter_list(self, rest: Counts, words: &mut [u64], range: Range, spot: Spot) -> Entered
        requires { Roomless (closed_by self rest) words.old range spot }
        ensures { (result ≡ enter_list (closed_by self rest) words.old range) × (words.new ≡ enter_words (closed_by self rest) words.old range) }
    {
        let arena = self.list.arena();
        let place = pair_words::spot_left(arena, words, rest.chain.head, range.base, spot);
        let joined = list_edits::join_at(arena, words, rest.chain, range, place);
        Entered {
            counts: Counts {
                chain: joined.chain,
                ..rest
            },
            range: joined.range,
        }
    }

    // Into the block land, and where it has no room into the list. i is the number of the first pair that reaches the base.
    fn enter(
        self,
        rest: Counts,
        words: &mut [u64],
        nodes: &mut [u64],
        range: Range,
        spot: Spot,
        i: usize,
    ) -> Entered
        requires fact { Open (closed_by self rest) words.old nodes.old range spot }
        requires first_reach { places.FirstReach nodes.old rest.ranges range.base.0 i }
        ensures { (result ≡ entered (closed_by self rest) words.old nodes.old range) × (words.new ≡ entered_words (closed_by self rest) words.old nodes.old range) × (nodes.new ≡ entered_nodes (closed_by self rest) nodes.old range) }
    {
        match block_edits::join_at(nodes, rest.ranges, i, range) {
            Err(_) => self.enter_list(rest, words, range, spot),
            Ok(edited) => {
                let bytes = rest.bytes.plus(range.size());
                Entered {
                    counts: Counts {
                        ranges: edited.count,
                        bytes,
                        ..rest
                    },
                    range: edited.range,
                }
            }
        }
    }

    // Closes both handles.
    fn close(self, counts: Counts) -> Pair
        ensures { result ≡ closed_by self counts }
    {
        let chain = counts.chain;
        Pair {
            list: self.list.close(chain.head, chain.ranges, chain.bytes),
            block: self.block.close(counts.ranges, counts.bytes),
        }
    }

    // Whether some byte of the range is free in either land.
    fn taken(self, words: &[u64], nodes: &[u64], range: Range, spot: Spot, entry: Entry) -> bool
        requires { Wanted self words.now nodes.now range spot entry }
        ensures { result ≡ taken_in self words.now nodes.now range }
    {
        let list = self.list;
        if list_edits::overlaps_at(list.arena(), words, list.chain(), range, spot) {
            return true;
        }
        block_edits::overlaps_at(nodes, self.block.ranges, entry.number, range)
    }

    // The flush, and the number of the first pair behind it that reaches the base of a range: where nothing was moved, the one
    // that was kept.
    fn prepared(self, words: &[u64], nodes: &mut [u64], range: Range, entry: Entry) -> Prepared
        requires { Preparable self words.now nodes.old range entry }
        ensures { ((result.counts ≡ flushed_counts self words.now nodes.old) × (nodes.new ≡ flushed_nodes self words.now nodes.old)) × places.FirstReach nodes.new result.counts.ranges range.base.0 result.place }
    {
        let counts = self.flushed(words, nodes);
        if counts.chain.head == self.list.head {
            return Prepared {
                counts,
                place: entry.number,
            };
        }
        let place = seeks::first_reach(nodes, counts.ranges as usize, range.base);
        Prepared { counts, place }
    }

    // Insert of a range that has no free byte: the flush, then the block land, then the list.
    fn insert_bare(
        self,
        words: &mut [u64],
        nodes: &mut [u64],
        range: Range,
        spot: Spot,
        entry: Entry,
    ) -> Changed
        requires { Bare self words.old nodes.old range spot entry }
        ensures { (result ≡ changed (inserted self words.old nodes.old range)) × (words.new ≡ (inserted self words.old nodes.old range).words.list) × (nodes.new ≡ (inserted self words.old nodes.old range).words.block) }
    {
        let ready = self.prepared(words, nodes, range, entry);
        let done = self.enter(ready.counts, words, nodes, range, spot, ready.place);
        Changed {
            pair: self.close(done.counts),
            answer: 0,
            range: done.range,
        }
    }

    // Insert in a pair that was checked, at the first ranges that reach the base of the request.
    fn insert_at(
        self,
        words: &mut [u64],
        nodes: &mut [u64],
        range: Range,
        spot: Spot,
        entry: Entry,
    ) -> Changed
        requires { Checked self words.old nodes.old (reach_base range) spot entry }
        ensures { (result ≡ changed (inserted self words.old nodes.old range)) × (words.new ≡ (inserted self words.old nodes.old range).words.list) × (nodes.new ≡ (inserted self words.old nodes.old range).words.block) }
    {
        let Ok(()) = self.block.arena().by_bit().check_range(range) else {
            return refused(self, Refusal::Request);
        };
        if self.taken(words, nodes, range, spot, entry) {
            return refused(self, Refusal::Overlap);
        }
        self.insert_bare(words, nodes, range, spot, entry)
    }

    // Makes a range free that has no free byte in either land. The list is first flushed into the block land. The range
    // returned is the isolated one that then contains it, of the land that took it in.
    pub fn insert(self, words: &mut [u64], nodes: &mut [u64], range: Range) -> Changed
        ensures { (result ≡ changed (inserted self words.old nodes.old range)) × (words.new ≡ (inserted self words.old nodes.old range).words.list) × (nodes.new ≡ (inserted self words.old nodes.old range).words.block) }
    {
        match self.check(words, nodes, Aim::Reach(range.base)) {
            Ok((spot, entry)) => self.insert_at(words, nodes, range, spot, entry),
            Err(refusal) => refused(self, refusal),
        }
    }
}
