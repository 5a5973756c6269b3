// The block land.
ghost use Rattle.std.specs.Prelude.{◌≡◌};
ghost use Rattle.units.specs.declared.Which.{Which};
ghost use Rattle.block_land.specs.Calls.{found_of};
ghost use Rattle.capi.specs.BlockFinds.{found_by};

use block_land::{BlockLand, Found};
use units::Which;

#[unsafe(no_mangle)]
pub extern "C" fn lg_block_find_last(
    land: BlockLand,
    nodes: &mut [u64],
    size: u64,
    mode: u64,
) -> Found
    ensures { (result ≡ found_of (found_by land nodes.old Which.Last size mode)) × (nodes.new ≡ (found_by land nodes.old Which.Last size mode).words) }
{
    capi::block::find(land, nodes, Which::Last, size, mode)
}

#[unsafe(no_mangle)]
pub extern "C" fn lg_block_find_largest(
    land: BlockLand,
    nodes: &mut [u64],
    size: u64,
    mode: u64,
) -> Found
    ensures { (result ≡ found_of (found_by land nodes.old Which.Largest size mode)) × (nodes.new ≡ (found_by land nodes.old Which.Largest size mode).words) }
{
    capi::block::find(land, nodes, Which::Largest, size, mode)
}
