// The pair's calls for a host in C.
//
// Every function here is proved to equal the call that it makes, and the crate assumes nothing of its own.
#![tactic(auto)]

ghost use Rattle.std.specs.Prelude.{◌≡◌};
ghost use Rattle.units.specs.declared.Which.{Which};
ghost use Rattle.pair.specs.inner.Parts.{found_none};
ghost use Rattle.pair.specs.Calls.{inserted, deleted, changed, found_of, set_up, sound};
ghost use Rattle.capi.specs.Modes.{unknown_mode};
ghost use Rattle.capi_pair.specs.PairFinds.{found_by};

use capi::modes;
use pair::{Changed, Found, Pair};
use units::{Aim, Range, Size, Which};

#[unsafe(no_mangle)]
pub extern "C" fn lg_pair_insert(
    pair: Pair,
    words: &mut [u64],
    nodes: &mut [u64],
    range: Range,
) -> Changed
    ensures { (result ≡ changed (inserted pair words.old nodes.old range)) × (words.new ≡ (inserted pair words.old nodes.old range).words.list) × (nodes.new ≡ (inserted pair words.old nodes.old range).words.block) }
{
    pair.insert(words, nodes, range)
}

#[unsafe(no_mangle)]
pub extern "C" fn lg_pair_delete(
    pair: Pair,
    words: &mut [u64],
    nodes: &mut [u64],
    range: Range,
) -> Changed
    ensures { (result ≡ changed (deleted pair words.old nodes.old range)) × (words.new ≡ (deleted pair words.old nodes.old range).words.list) × (nodes.new ≡ (deleted pair words.old nodes.old range).words.block) }
{
    pair.delete(words, nodes, range)
}

// The refusal of a find whose mode is not known.
fn refuse(pair: Pair, words: &[u64], nodes: &[u64]) -> Found
    ensures { result ≡ found_none pair (unknown_mode (set_up pair words.now nodes.now) (sound pair words.now nodes.now)) }
{
    let refusal = modes::refusal_after(pair.check(words, nodes, Aim::Nothing));
    Found {
        pair,
        answer: refusal.number(),
        range: Range::none(),
        old: Range::none(),
    }
}

// The find that `which` names, with its size and its mode as numbers.
#[inline(always)]
fn find(
    pair: Pair,
    words: &mut [u64],
    nodes: &mut [u64],
    which: Which,
    size: u64,
    mode: u64,
) -> Found
    ensures { (result ≡ found_of (found_by pair words.old nodes.old which size mode)) × (words.new ≡ (found_by pair words.old nodes.old which size mode).words.list) × (nodes.new ≡ (found_by pair words.old nodes.old which size mode).words.block) }
{
    let found = match modes::mode_of(mode) {
        Some(mode) => pair.find(words, nodes, which, Size::new(size), mode),
        None => refuse(pair, words, nodes),
    };
    // Made anew from its parts: handed on whole, it would be copied by a call of memcpy.
    Found {
        pair: found.pair,
        answer: found.answer,
        range: found.range,
        old: found.old,
    }
}

#[unsafe(no_mangle)]
pub extern "C" fn lg_pair_find_first(
    pair: Pair,
    words: &mut [u64],
    nodes: &mut [u64],
    size: u64,
    mode: u64,
) -> Found
    ensures { (result ≡ found_of (found_by pair words.old nodes.old Which.First size mode)) × (words.new ≡ (found_by pair words.old nodes.old Which.First size mode).words.list) × (nodes.new ≡ (found_by pair words.old nodes.old Which.First size mode).words.block) }
{
    find(pair, words, nodes, Which::First, size, mode)
}

#[unsafe(no_mangle)]
pub extern "C" fn lg_pair_find_last(
    pair: Pair,
    words: &mut [u64],
    nodes: &mut [u64],
    size: u64,
    mode: u64,
) -> Found
    ensures { (result ≡ found_of (found_by pair words.old nodes.old Which.Last size mode)) × (words.new ≡ (found_by pair words.old nodes.old Which.Last size mode).words.list) × (nodes.new ≡ (found_by pair words.old nodes.old Which.Last size mode).words.block) }
{
    find(pair, words, nodes, Which::Last, size, mode)
}

#[unsafe(no_mangle)]
pub extern "C" fn lg_pair_find_largest(
    pair: Pair,
    words: &mut [u64],
    nodes: &mut [u64],
    size: u64,
    mode: u64,
) -> Found
    ensures { (result ≡ found_of (found_by pair words.old nodes.old Which.Largest size mode)) × (words.new ≡ (found_by pair words.old nodes.old Which.Largest size mode).words.list) × (nodes.new ≡ (found_by pair words.old nodes.old Which.Largest size mode).words.block) }
{
    find(pair, words, nodes, Which::Largest, size, mode)
}
