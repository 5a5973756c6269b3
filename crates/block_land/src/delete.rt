// Delete: a range taken out of the range of a sound table that holds it.
ghost use Rattle.std.specs.Prelude.{◌≡◌};
ghost use Rattle.block_land.specs.Calls.{changed, deleted};
ghost use Rattle.block_land.specs.inner.Parts.{Looked, reach_limit};

use crate::{BlockLand, Changed, refused};
use block_words::Entry;
use units::{Aim, Range, Refusal};

impl BlockLand {
    // Delete from a sound table, at the first range that reaches the limit of the request.
    fn delete_at(self, nodes: &mut [u64], range: Range, entry: Entry) -> Changed
        requires { Looked self nodes.old (reach_limit range) entry }
        ensures { (result ≡ changed (deleted self nodes.old range)) × (nodes.new ≡ (deleted self nodes.old range).words) }
    {
        let Ok(()) = self.good_arena().check_range(range) else {
            return refused(self, Refusal::Request);
        };
        match block_edits::cut_out(nodes, self.ranges, entry.number, range) {
            Err(why) => refused(self, why),
            Ok(edited) => {
                let bytes = self.bytes.minus(range.size());
                Changed {
                    land: self.close(edited.count, bytes),
                    answer: 0,
                    range: edited.range,
                }
            }
        }
    }

    // Takes a range out that is wholly free. The range returned is the isolated one that contained it before.
    pub fn delete(self, nodes: &mut [u64], range: Range) -> Changed
        ensures { (result ≡ changed (deleted self nodes.old range)) × (nodes.new ≡ (deleted self nodes.old range).words) }
    {
        match self.look(nodes, Aim::Reach(range.limit)) {
            Err(refusal) => refused(self, refusal),
            Ok(entry) => self.delete_at(nodes, range, entry),
        }
    }
}
