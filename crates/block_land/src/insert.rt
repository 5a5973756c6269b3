// Insert: a range put into a sound table, joined with the ranges that it touches.
ghost use Rattle.std.specs.Prelude.{◌≡◌};
ghost use Rattle.block_land.specs.Calls.{changed, inserted};
ghost use Rattle.block_land.specs.inner.Parts.{Looked, reach_base};

use crate::{BlockLand, Changed, refused};
use block_words::Entry;
use units::{Aim, Range, Refusal};

impl BlockLand {
    // Insert into a sound table, at the first range that reaches the base of the request.
    fn insert_at(self, nodes: &mut [u64], range: Range, entry: Entry) -> Changed
        requires { Looked self nodes.old (reach_base range) entry }
        ensures { (result ≡ changed (inserted self nodes.old range)) × (nodes.new ≡ (inserted self nodes.old range).words) }
    {
        let Ok(()) = self.good_arena().check_range(range) else {
            return refused(self, Refusal::Request);
        };
        match block_edits::put_at(nodes, self.ranges, entry.number, range) {
            Err(why) => refused(self, why),
            Ok(edited) => {
                let bytes = self.bytes.plus(range.size());
                Changed {
                    land: self.close(edited.count, bytes),
                    answer: 0,
                    range: edited.range,
                }
            }
        }
    }

    // Makes a range free that has no free byte. The range returned is the isolated one that then contains it.
    pub fn insert(self, nodes: &mut [u64], range: Range) -> Changed
        ensures { (result ≡ changed (inserted self nodes.old range)) × (nodes.new ≡ (inserted self nodes.old range).words) }
    {
        match self.look(nodes, Aim::Reach(range.base)) {
            Err(refusal) => refused(self, refusal),
            Ok(entry) => self.insert_at(nodes, range, entry),
        }
    }
}
