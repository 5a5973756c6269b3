// The edits of one land of a pair that several calls use: a part taken out of the list, or of the table.
ghost use Rattle.std.specs.Prelude.{◌≡◌};
ghost use Rattle.list_words.specs.Laying.{lay};
ghost use Rattle.list_land.specs.Layout as list-layout;
ghost use Rattle.block_words.specs.Words.{fill};
ghost use Rattle.block_land.specs.Layout as block-layout;
ghost use Rattle.pair.specs.inner.Editing.{list_less, table_less, TakingListed, TakingTabled};

use block_land::BlockLand;
use list_land::ListLand;
use list_words::Spot;
use units::Range;

// Takes a part out of the range at a spot of a sound list.
pub(crate) fn take_listed(list: ListLand, words: &mut [u64], range: Range, spot: Spot) -> ListLand
    requires { TakingListed list words.old range spot }
    ensures { (result ≡ list-layout.closed list (list_less list words.old range)) × (words.new ≡ lay (list-layout.base list) (list_less list words.old range) words.old) }
{
    let chain = list_edits::cut_at(list.arena(), words, list.chain(), spot, range);
    list.close(chain.head, chain.ranges, chain.bytes)
}

// Takes a part that reaches an end of pair i of a sound table out of it.
pub(crate) fn take_tabled(block: BlockLand, nodes: &mut [u64], i: usize, range: Range) -> BlockLand
    requires { TakingTabled block nodes.old i range }
    ensures { (result ≡ block-layout.closed block (table_less block nodes.old range)) × (nodes.new ≡ fill (table_less block nodes.old range) nodes.old) }
{
    let count = block_edits::cut::cut_at(nodes, block.ranges, i, range);
    let bytes = block.bytes.minus(range.size());
    block.close(count, bytes)
}
