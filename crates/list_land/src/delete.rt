// Delete: a range taken out of the range of a sound list that holds it.
ghost use Rattle.std.specs.Prelude.{◌≡◌};
ghost use Rattle.list_land.specs.Calls.{changed, deleted};
ghost use Rattle.list_land.specs.inner.Parts.{Looked, reach_limit};

use crate::{Changed, ListLand, refused};
use list_words::Spot;
use units::{Aim, Range, Refusal};

impl ListLand {
    // Delete from a sound list, at the first range that reaches the limit of the request.
    fn delete_at(self, words: &mut [u64], range: Range, spot: Spot) -> Changed
        requires { Looked self words.old (reach_limit range) spot }
        ensures { (result ≡ changed (deleted self words.old range)) × (words.new ≡ (deleted self words.old range).words) }
    {
        let arena = self.good_arena();
        let Ok(()) = arena.check_range(range) else {
            return refused(self, Refusal::Request);
        };
        match list_edits::cut_out(arena, words, self.chain(), range, spot) {
            Err(overlap) => refused(self, overlap),
            Ok(edited) => {
                let chain = edited.chain;
                Changed {
                    land: self.close(chain.head, chain.ranges, chain.bytes),
                    answer: 0,
                    range: edited.range,
                }
            }
        }
    }

    // Takes a range out whose bytes are all free. The range returned is the isolated one that contained it.
    pub fn delete(self, words: &mut [u64], range: Range) -> Changed
        ensures { (result ≡ changed (deleted self words.old range)) × (words.new ≡ (deleted self words.old range).words) }
    {
        match self.look(words, Aim::Reach(range.limit)) {
            Err(refusal) => refused(self, refusal),
            Ok(spot) => self.delete_at(words, range, spot),
        }
    }
}
