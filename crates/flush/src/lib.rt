// The flush from a list land into a block land of the same arena.
//
// It takes every handle, every lent memory and every number. A refused flush moves nothing and hands back both handles.
// Every function here is proved, and the crate assumes nothing of its own.
#![tactic(auto)]

ghost use Rattle.std.specs.Prelude.{◌≡◌, Ok, Err};
ghost use Rattle.units.specs.Rules.{refusal_number};
ghost use Rattle.units.specs.inner.Parts.{set_up_of};
ghost use Rattle.flush.specs.Flush.{same_arena, refusal, check_number, check_of, flushed};
ghost use Rattle.flush.specs.inner.Checks.{if_same, behind_damaged, behind_sound};
ghost use Rattle.transfers.specs.inner.Transfers.{stop_number};

use block_land::BlockLand;
use list_land::ListLand;
use units::{Aim, Refusal};

// What a flush returns: both next handles, the answer's number, the number of ranges moved, and the refusal that stopped it, or 0.
#[repr(C)]
#[derive(Clone, Copy)]
pub struct Flushed {
    pub list: ListLand,
    pub block: BlockLand,
    pub answer: u64,
    pub moved: u64,
    pub stop: u64,
}

// The first check that fails: the set-up of the list, of the block land, one arena for both, a sound list, a sound table.
#[derive(Clone, Copy, Debug, PartialEq, Eq)]
pub enum FlushError {
    ListSetUp,
    BlockSetUp,
    Differ,
    ListDamaged,
    BlockDamaged,
}

impl FlushError {
    // How a flush is refused for it.
    fn refusal(self) -> Refusal
        ensures { refusal_number result ≡ check_number (Err self) }
    {
        match self {
            FlushError::ListSetUp => Refusal::SetUp,
            FlushError::BlockSetUp => Refusal::SetUp,
            FlushError::Differ => Refusal::SetUp,
            FlushError::ListDamaged => Refusal::Damaged,
            FlushError::BlockDamaged => Refusal::Damaged,
        }
    }
}

fn refused(list: ListLand, block: BlockLand, error: FlushError) -> Flushed
    ensures { result ≡ refusal list block (check_number (Err error)) }
{
    Flushed {
        list,
        block,
        answer: error.refusal().number(),
        moved: 0,
        stop: 0,
    }
}

// Whether base, limit and alignment of the two lands are the same.
pub fn same_arena(list: ListLand, block: BlockLand) -> Result<(), Refusal>
    ensures { result ≡ set_up_of (same_arena list block) }
{
    if list.base != block.base {
        return Err(Refusal::SetUp);
    }
    if list.limit != block.limit {
        return Err(Refusal::SetUp);
    }
    if list.align != block.align {
        return Err(Refusal::SetUp);
    }
    Ok(())
}

// A check that comes behind the difference of the two lands.
fn if_same(
    list: ListLand,
    block: BlockLand,
    check: Result<(), FlushError>,
) -> Result<(), FlushError>
    ensures { result ≡ if_same list block check }
{
    let Ok(()) = same_arena(list, block) else {
        return Err(FlushError::Differ);
    };
    check
}

// The checks behind the set-up of a list that is not sound.
fn check_damaged(list: ListLand, block: BlockLand, nodes: &[u64]) -> Result<(), FlushError>
    ensures { result ≡ behind_damaged list block nodes.now }
{
    let Ok(()) = block.set_up(nodes) else {
        return Err(FlushError::BlockSetUp);
    };
    if_same(list, block, Err(FlushError::ListDamaged))
}

// The checks behind the set-up of a sound list.
fn check_sound(list: ListLand, block: BlockLand, nodes: &[u64]) -> Result<(), FlushError>
    ensures { result ≡ behind_sound list block nodes.now }
{
    match block.look(nodes, Aim::Nothing) {
        Ok(_) => if_same(list, block, Ok(())),
        Err(refusal) => match refusal {
            Refusal::SetUp => Err(FlushError::BlockSetUp),
            _ => if_same(list, block, Err(FlushError::BlockDamaged)),
        },
    }
}

// The checks of a flush: the first that fails. Each land is looked at once; what it says of the set-up comes first.
pub fn check(
    list: ListLand,
    words: &[u64],
    block: BlockLand,
    nodes: &[u64],
) -> Result<(), FlushError>
    ensures { result ≡ check_of list words.now block nodes.now }
{
    match list.look(words, Aim::Nothing) {
        Ok(_) => check_sound(list, block, nodes),
        Err(refusal) => match refusal {
            Refusal::SetUp => Err(FlushError::ListSetUp),
            _ => check_damaged(list, block, nodes),
        },
    }
}

// The number of the refusal that stopped a transfer, or 0.
fn stop_number(stop: Option<Refusal>) -> u64
    ensures { result ≡ stop_number stop }
{
    match stop {
        Some(refusal) => refusal.number(),
        None => 0,
    }
}

// A flush whose checks are good.
fn flush_all(list: ListLand, words: &[u64], block: BlockLand, nodes: &mut [u64]) -> Flushed
    requires { check_of list words.now block nodes.old ≡ Ok tt }
    ensures { (result ≡ (flushed list words.now block nodes.old).result) × (nodes.new ≡ (flushed list words.now block nodes.old).nodes) }
{
    let done = transfers::transfer(list.arena(), words, list.head, nodes, block.ranges);
    Flushed {
        list: list.close(
            done.at,
            list.ranges - done.moved,
            list.bytes.minus(done.bytes),
        ),
        block: block.close(done.count, block.bytes.plus(done.bytes)),
        answer: 0,
        moved: done.moved,
        stop: stop_number(done.stop),
    }
}

// Takes the list's ranges in address order, each out of the list and into the block land, until the list is empty or an
// insert is refused; that range stays in the list. No word of the arena changes.
pub fn flush(list: ListLand, words: &[u64], block: BlockLand, nodes: &mut [u64]) -> Flushed
    ensures { (result ≡ (flushed list words.now block nodes.old).result) × (nodes.new ≡ (flushed list words.now block nodes.old).nodes) }
{
    match check(list, words, block, nodes) {
        Ok(()) => flush_all(list, words, block, nodes),
        Err(error) => refused(list, block, error),
    }
}
