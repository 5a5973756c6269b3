// The calls for a host in C: by value, one for each call of a land but the finds of the last and the largest, the flush, and the
// version. A library exports nothing: `capi_c` exports each under its name.
//
// Every function here is proved to equal the call that it makes, the version its definition. The crate assumes nothing of its own.
#![tactic(auto)]

pub mod block;
pub mod list;
pub mod modes;
pub mod version;

ghost use Rattle.std.specs.Prelude.{◌≡◌};
ghost use Rattle.flush.specs.Flush.{flushed};

use block_land::BlockLand;
use flush::Flushed;
use list_land::ListLand;

pub fn lg_flush(list: ListLand, words: &[u64], block: BlockLand, nodes: &mut [u64]) -> Flushed
    ensures { (result ≡ (flushed list words.now block nodes.old).result) × (nodes.new ≡ (flushed list words.now block nodes.old).nodes) }
{
    flush::flush(list, words, block, nodes)
}
