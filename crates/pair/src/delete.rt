// Delete: a range taken out of the land that holds it whole. Where the block land has no room for both fragments, the
// upper one goes to the list.
ghost use Rattle.std.specs.Prelude.{◌≡◌};
ghost use Rattle.pair.specs.Calls.{changed, deleted};
ghost use Rattle.pair.specs.inner.Parts.{Checked};
ghost use Rattle.list_land.specs.inner.Parts.{reach_limit};
ghost use Rattle.pair.specs.inner.Deletes.{begins, Asked, Unlisted, Spilling, Nowhere};

use crate::edits::{take_listed, take_tabled};
use crate::{Changed, Pair, refused};
use block_words::Entry;
use list_words::Spot;
use units::{Aim, Range, Refusal};

// Whether there is a range, and it begins at or below the request.
fn begins_below(range: Range, here: Range) -> bool
    ensures { result ≡ begins range here }
{
    if here.base.is_zero() {
        return false;
    }
    here.base <= range.base
}

impl Pair {
    // A range that neither land holds: 7 if every byte of it is free, else 1.
    fn refuse_delete(self, words: &[u64], nodes: &[u64], range: Range) -> Changed
        requires { Nowhere self words.now nodes.now range }
        ensures { (result ≡ changed (deleted self words.now nodes.now range)) × (words.now ≡ (deleted self words.now nodes.now range).words.list) × (nodes.now ≡ (deleted self words.now nodes.now range).words.block) }
    {
        let listed = pair_words::list_share(self.list.arena(), words, self.list.head, range);
        let tabled = pair_words::table_share(nodes, self.block.ranges, range);
        if listed.plus(tabled) == range.size() {
            return refused(self, Refusal::InBoth);
        }
        refused(self, Refusal::Overlap)
    }

    // The lower fragment stays in the block land, and the upper goes to the list.
    fn hand_over(
        self,
        words: &mut [u64],
        nodes: &mut [u64],
        range: Range,
        spot: Spot,
        entry: Entry,
    ) -> Changed
        requires { Spilling self words.old nodes.old range spot entry }
        ensures { (result ≡ changed (deleted self words.old nodes.old range)) × (words.new ≡ (deleted self words.old nodes.old range).words.list) × (nodes.new ≡ (deleted self words.old nodes.old range).words.block) }
    {
        let here = entry.here;
        let upper = Range::new(range.limit, here.limit);
        let above = Range::new(range.base, here.limit);
        let joined = list_edits::join_at(self.list.arena(), words, self.list.chain(), upper, spot);
        let chain = joined.chain;
        let list = self.list.close(chain.head, chain.ranges, chain.bytes);
        let block = take_tabled(self.block, nodes, entry.number, above);
        Changed {
            pair: Pair { list, block },
            answer: 0,
            range: here,
        }
    }

    // Delete of a good request that the list does not hold.
    fn delete_tabled(
        self,
        words: &mut [u64],
        nodes: &mut [u64],
        range: Range,
        spot: Spot,
        entry: Entry,
    ) -> Changed
        requires { Unlisted self words.old nodes.old range spot entry }
        ensures { (result ≡ changed (deleted self words.old nodes.old range)) × (words.new ≡ (deleted self words.old nodes.old range).words.list) × (nodes.new ≡ (deleted self words.old nodes.old range).words.block) }
    {
        match block_edits::cut_out(nodes, self.block.ranges, entry.number, range) {
            Err(refusal) => match refusal {
                Refusal::Full => self.hand_over(words, nodes, range, spot, entry),
                _ => self.refuse_delete(words, nodes, range),
            },
            Ok(edited) => {
                let bytes = self.block.bytes.minus(range.size());
                let block = self.block.close(edited.count, bytes);
                Changed {
                    pair: Pair { block, ..self },
                    answer: 0,
                    range: edited.range,
                }
            }
        }
    }

    // Delete of a request that keeps the range rule.
    fn delete_good(
        self,
        words: &mut [u64],
        nodes: &mut [u64],
        range: Range,
        spot: Spot,
        entry: Entry,
    ) -> Changed
        requires { Asked self words.old nodes.old range spot entry }
        ensures { (result ≡ changed (deleted self words.old nodes.old range)) × (words.new ≡ (deleted self words.old nodes.old range).words.list) × (nodes.new ≡ (deleted self words.old nodes.old range).words.block) }
    {
        if begins_below(range, spot.here) {
            let list = take_listed(self.list, words, range, spot);
            return Changed {
                pair: Pair { list, ..self },
                answer: 0,
                range: spot.here,
            };
        }
        self.delete_tabled(words, nodes, range, spot, entry)
    }

    // Delete from a pair that was checked, at the first ranges that reach the limit of the request.
    fn delete_at(
        self,
        words: &mut [u64],
        nodes: &mut [u64],
        range: Range,
        spot: Spot,
        entry: Entry,
    ) -> Changed
        requires { Checked self words.old nodes.old (reach_limit range) spot entry }
        ensures { (result ≡ changed (deleted self words.old nodes.old range)) × (words.new ≡ (deleted self words.old nodes.old range).words.list) × (nodes.new ≡ (deleted self words.old nodes.old range).words.block) }
    {
        let Ok(()) = self.block.arena().divided().check_range(range) else {
            return refused(self, Refusal::Request);
        };
        self.delete_good(words, nodes, range, spot, entry)
    }

    // Takes a range out of the land that holds all of it. The range returned is the isolated one of that land that
    // contained it before. 7 if its bytes are all free, in both lands.
    pub fn delete(self, words: &mut [u64], nodes: &mut [u64], range: Range) -> Changed
        ensures { (result ≡ changed (deleted self words.old nodes.old range)) × (words.new ≡ (deleted self words.old nodes.old range).words.list) × (nodes.new ≡ (deleted self words.old nodes.old range).words.block) }
    {
        match self.check(words, nodes, Aim::Reach(range.limit)) {
            Ok((spot, entry)) => self.delete_at(words, nodes, range, spot, entry),
            Err(refusal) => refused(self, refusal),
        }
    }
}
