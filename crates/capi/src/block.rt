// The block land.
ghost use Rattle.std.specs.Prelude.{◌≡◌};
ghost use Rattle.units.specs.declared.Which.{Which};
ghost use Rattle.block_land.specs.inner.Parts.{found_none};
ghost use Rattle.block_land.specs.Calls.{opened_of, opened_words, inserted, deleted, walked, changed, found_of};
ghost use Rattle.block_land.specs.Layout.{set_up, sound};
ghost use Rattle.capi.specs.Modes.{unknown_mode};
ghost use Rattle.capi.specs.BlockFinds.{found_by};

use crate::modes;
use block_land::{BlockLand, Changed, Found, Opened};
use units::{Addr, Aim, Align, Range, Size, Which};

pub fn lg_block_open(base: u64, limit: u64, align: u64, nodes: &mut [u64]) -> Opened
    ensures { (result ≡ opened_of base limit align nodes.old) × (nodes.new ≡ opened_words base limit align nodes.old) }
{
    BlockLand::open(Addr::new(base), Addr::new(limit), Align::new(align), nodes)
}

pub fn lg_block_insert(land: BlockLand, nodes: &mut [u64], range: Range) -> Changed
    ensures { (result ≡ changed (inserted land nodes.old range)) × (nodes.new ≡ (inserted land nodes.old range).words) }
{
    land.insert(nodes, range)
}

pub fn lg_block_delete(land: BlockLand, nodes: &mut [u64], range: Range) -> Changed
    ensures { (result ≡ changed (deleted land nodes.old range)) × (nodes.new ≡ (deleted land nodes.old range).words) }
{
    land.delete(nodes, range)
}

// The refusal of a find whose mode is not known.
pub fn refuse(land: BlockLand, nodes: &[u64]) -> Found
    ensures { result ≡ found_none land (unknown_mode (set_up land nodes.now) (sound land nodes.now)) }
{
    Found {
        land,
        answer: modes::refusal_after(land.look(nodes, Aim::Nothing)).number(),
        range: Range::none(),
        old: Range::none(),
    }
}

// The find that `which` names, with its size and its mode as numbers.
pub fn find(land: BlockLand, nodes: &mut [u64], which: Which, size: u64, mode: u64) -> Found
    ensures { (result ≡ found_of (found_by land nodes.old which size mode)) × (nodes.new ≡ (found_by land nodes.old which size mode).words) }
{
    match modes::mode_of(mode) {
        Some(mode) => land.find(nodes, which, Size::new(size), mode),
        None => refuse(land, nodes),
    }
}

pub fn lg_block_find_first(land: BlockLand, nodes: &mut [u64], size: u64, mode: u64) -> Found
    ensures { (result ≡ found_of (found_by land nodes.old Which.First size mode)) × (nodes.new ≡ (found_by land nodes.old Which.First size mode).words) }
{
    find(land, nodes, Which::First, size, mode)
}

pub fn lg_block_walk(land: BlockLand, nodes: &[u64], from: u64) -> Changed
    ensures { (result ≡ changed (walked land nodes.now from)) × (nodes.now ≡ (walked land nodes.now from).words) }
{
    land.walk(nodes, Addr::new(from))
}
