// Insert: a range put into a sound list, joined with the ranges that it touches.
ghost use Rattle.std.specs.Prelude.{◌≡◌};
ghost use Rattle.list_land.specs.Calls.{changed, inserted};
ghost use Rattle.list_land.specs.inner.Parts.{Looked, reach_base};

use crate::{Changed, ListLand, refused};
use list_words::Spot;
use units::{Aim, Range, Refusal};

impl ListLand {
    // Insert in a sound list, at the first range that reaches the base of the request.
    fn insert_at(self, words: &mut [u64], range: Range, spot: Spot) -> Changed
        requires { Looked self words.old (reach_base range) spot }
        ensures { (result ≡ changed (inserted self words.old range)) × (words.new ≡ (inserted self words.old range).words) }
    {
        let arena = self.good_arena();
        let Ok(()) = arena.check_range(range) else {
            return refused(self, Refusal::Request);
        };
        match list_edits::put_at(arena, words, self.chain(), range, spot) {
            Err(overlap) => refused(self, overlap),
            Ok(edited) => {
                let chain = edited.chain;
                Changed {
                    land: self.close(chain.head, chain.ranges, chain.bytes),
                    answer: 0,
                    range: edited.range,
                }
            }
        }
    }

    // Makes a range free that has no free byte. The range returned is the isolated one that then contains it.
    pub fn insert(self, words: &mut [u64], range: Range) -> Changed
        ensures { (result ≡ changed (inserted self words.old range)) × (words.new ≡ (inserted self words.old range).words) }
    {
        match self.look(words, Aim::Reach(range.base)) {
            Err(refusal) => refused(self, refusal),
            Ok(spot) => self.insert_at(words, range, spot),
        }
    }
}
