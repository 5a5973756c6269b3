// The calls of `capi` for a host in C, as an archive: a library exports nothing, so each is exported here, under its name and with
// its clauses.
//
// Every function here is proved to equal the call that it makes, and the crate assumes nothing of its own.
#![tactic(auto)]

pub mod block;
pub mod list;

ghost use Rattle.std.specs.Prelude.{◌≡◌};
ghost use Rattle.flush.specs.Flush.{flushed};
ghost use Rattle.capi.specs.Version.{version};

use block_land::BlockLand;
use flush::Flushed;
use list_land::ListLand;

#[unsafe(no_mangle)]
pub extern "C" fn lg_flush(
    list: ListLand,
    words: &[u64],
    block: BlockLand,
    nodes: &mut [u64],
) -> Flushed
    ensures { (result ≡ (flushed list words.now block nodes.old).result) × (nodes.new ≡ (flushed list words.now block nodes.old).nodes) }
{
    capi::lg_flush(list, words, block, nodes)
}

#[unsafe(no_mangle)]
pub extern "C" fn lg_version() -> u64
    ensures { result ≡ version }
{
    capi::version::lg_version()
}
