// The block land.
ghost use Rattle.std.specs.Prelude.{◌≡◌};
ghost use Rattle.units.specs.declared.Which.{Which};
ghost use Rattle.block_land.specs.Calls.{opened_of, opened_words, inserted, deleted, walked, changed, found_of};
ghost use Rattle.capi.specs.BlockFinds.{found_by};

use block_land::{BlockLand, Changed, Found, Opened};
use units::Range;

#[unsafe(no_mangle)]
pub extern "C" fn lg_block_open(base: u64, limit: u64, align: u64, nodes: &mut [u64]) -> Opened
    ensures { (result ≡ opened_of base limit align nodes.old) × (nodes.new ≡ opened_words base limit align nodes.old) }
{
    capi::block::lg_block_open(base, limit, align, nodes)
}

#[unsafe(no_mangle)]
pub extern "C" fn lg_block_insert(land: BlockLand, nodes: &mut [u64], range: Range) -> Changed
    ensures { (result ≡ changed (inserted land nodes.old range)) × (nodes.new ≡ (inserted land nodes.old range).words) }
{
    capi::block::lg_block_insert(land, nodes, range)
}

#[unsafe(no_mangle)]
pub extern "C" fn lg_block_delete(land: BlockLand, nodes: &mut [u64], range: Range) -> Changed
    ensures { (result ≡ changed (deleted land nodes.old range)) × (nodes.new ≡ (deleted land nodes.old range).words) }
{
    capi::block::lg_block_delete(land, nodes, range)
}

#[unsafe(no_mangle)]
pub extern "C" fn lg_block_find_first(
    land: BlockLand,
    nodes: &mut [u64],
    size: u64,
    mode: u64,
) -> Found
    ensures { (result ≡ found_of (found_by land nodes.old Which.First size mode)) × (nodes.new ≡ (found_by land nodes.old Which.First size mode).words) }
{
    capi::block::lg_block_find_first(land, nodes, size, mode)
}

#[unsafe(no_mangle)]
pub extern "C" fn lg_block_walk(land: BlockLand, nodes: &[u64], from: u64) -> Changed
    ensures { (result ≡ changed (walked land nodes.now from)) × (nodes.now ≡ (walked land nodes.now from).words) }
{
    capi::block::lg_block_walk(land, nodes, from)
}
