//! The live names, counted before each block, by which one is found by its number.
ghost use Rattle.std.specs.Prelude.{◌≡◌, ◌<◌, ◌≤◌, ◌+◌, ◌^◌, Some, IfOk, OnOk, OnErr, get_or, length, slice_get, take, vec_capacity};
ghost use Rattle.std.specs.FinMap.{put};
ghost use Rattle.wsegment.specs.Declaration.{Declaration};
ghost use Rattle.wvalues.specs.Names.{name_cmp};
ghost use Rattle.wentries.specs.Knowledge.{Floor};
ghost use Rattle.wentries.specs.Holding.{IsHeldBy, known_of};
ghost use Rattle.wentries.specs.Entries.{AreBelow, AreOriginsBelow, AllHeldBy, IsRising, above_floor, known_entries};
ghost use Rattle.wentries.specs.Blocks.{IsGrown, flat};
ghost use Rattle.wset.specs.Running.{AreStarts, IsLiveHome, lives_before};
ghost use Rattle.wentries.specs.Keeping.{kept_in};

use std::alloc::{AllocError, Global};
use wentries::{Block, Held, Kept, end_before, end_before_origin, live_at, put_in, raise_in};
use wvalues::Name;

/// The number of live names before the next block to be counted, behind those that are.
fn next_start(blocks: &[Block], starts: &[usize]) -> usize
    requires few { length (flat blocks.now) < 2 ^ 64 }
    requires in_range { length starts.now ≤ length blocks.now }
    requires starts { AreStarts blocks.now starts.now }
    ensures { result ≡ lives_before blocks.now (length starts.now) }
{
    if starts.is_empty() {
        return 0;
    }
    let last = starts.len() - 1;
    starts[last] + blocks[last].live_count()
}

/// Counts the live names before each block, where those before the first ones are counted. It takes no memory.
fn count_on(blocks: &[Block], starts: &mut Vec<usize>)
    requires few { length (flat blocks.now) < 2 ^ 64 }
    requires room { length blocks.now ≤ vec_capacity starts.old }
    requires in_range { length starts.old.items ≤ length blocks.now }
    requires starts { AreStarts blocks.now starts.old.items }
    ensures placed { length starts.new.items ≡ length blocks.now }
    ensures starts { AreStarts blocks.now starts.new.items }
{
    'blocks: while starts.len() < blocks.len() {
        let start = next_start(blocks, starts);
        starts.push_reserved(start);
    }
}

/// How many of the starts of blocks stay when something is put of a name: all, where all names stand before it, and
/// else none.
fn starts_kept(blocks: &[Block], name: &Name) -> usize
    requires { IsRising (flat blocks.now) }
    ensures in_range { result ≤ length blocks.now }
    ensures kept { 0 < result → AreBelow name.now (known_entries (flat blocks.now)) }
{
    if end_before(blocks, name) {
        return blocks.len();
    }
    0
}

/// Counts the live names before each block again, but for the first ones. It takes a step for each block behind them, and
/// no memory.
fn count_again(blocks: &[Block], starts: &mut Vec<usize>, kept: usize)
    requires few { length (flat blocks.now) < 2 ^ 64 }
    requires room { length blocks.now ≤ vec_capacity starts.old }
    requires in_range { kept ≤ length blocks.now }
    requires starts { AreStarts blocks.now (take kept starts.old.items) }
    ensures placed { length starts.new.items ≡ length blocks.now }
    ensures starts { AreStarts blocks.now starts.new.items }
{
    starts.truncate(kept);
    count_on(blocks, starts);
}

/// Puts what is held of a name, in the place of what was. Where no block has more or fewer live names then, nothing is counted
/// again, as where a name that is not live is put into a block with room for it; else a step where all names stand before it,
/// and one for each block where not. Where it finds no memory no entry is changed.
pub(crate) fn put_counted(
    alloc: Global,
    blocks: &mut Vec<Block>,
    starts: &mut Vec<usize>,
    name: Name,
    held: Held,
) -> Result<(), AllocError>
    requires rising { IsRising (flat blocks.old.items) }
    requires few { length (put name_cmp name (known_of held) (known_entries (flat blocks.old.items))) < 2 ^ 64 }
    requires placed { length starts.old.items ≡ length blocks.old.items }
    requires starts { AreStarts blocks.old.items starts.old.items }
    ensures ok { OnOk result
        (known_entries (flat blocks.new.items)
        ≡ put name_cmp name (known_of held) (known_entries (flat blocks.old.items))) }
    ensures read { (d : Declaration)
        → AllHeldBy d (flat blocks.old.items) → IsHeldBy d held → AllHeldBy d (flat blocks.new.items) }
    ensures err { OnErr result (flat blocks.new.items ≡ flat blocks.old.items) }
    ensures behind { AreBelow name (known_entries (flat blocks.old.items)) → IsGrown blocks.old.items blocks.new.items }
    ensures placed { length starts.new.items ≡ length blocks.new.items }
    ensures starts { AreStarts blocks.new.items starts.new.items }
{
    starts.reserve(1)?;
    let kept = starts_kept(blocks, &name);
    let Ok(changes) = put_in(alloc, blocks, name, held) else {
        count_again(blocks, starts, kept);
        return Err(AllocError);
    };
    if !changes {
        return Ok(());
    }
    count_again(blocks, starts, kept);
    Ok(())
}

/// Puts a floor, and drops what is below it. Where a block has more or fewer live names then, or blocks came or went, it counts
/// again: a step for each block. It tells how many entries fall of those with the floor. Where it finds no memory no entry is
/// changed.
fn raise_inside(
    alloc: Global,
    blocks: &mut Vec<Block>,
    starts: &mut Vec<usize>,
    floor: Name,
) -> Result<usize, AllocError>
    requires rising { IsRising (flat blocks.old.items) }
    requires few { length (put name_cmp floor Floor (known_entries (flat blocks.old.items))) < 2 ^ 64 }
    requires placed { length starts.old.items ≡ length blocks.old.items }
    requires starts { AreStarts blocks.old.items starts.old.items }
    ensures ok { OnOk result
        (known_entries (flat blocks.new.items)
        ≡ above_floor floor (put name_cmp floor Floor (known_entries (flat blocks.old.items)))) }
    ensures read { (d : Declaration) → AllHeldBy d (flat blocks.old.items) → AllHeldBy d (flat blocks.new.items) }
    ensures err { OnErr result (flat blocks.new.items ≡ flat blocks.old.items) }
    ensures few { length (flat blocks.new.items) < 2 ^ 64 }
    ensures fall { IfOk result (λ fall. length (flat blocks.new.items) + fall
        ≡ length (put name_cmp floor Floor (known_entries (flat blocks.old.items)))) }
    ensures placed { length starts.new.items ≡ length blocks.new.items }
    ensures starts { AreStarts blocks.new.items starts.new.items }
{
    starts.reserve(1)?;
    let Ok(fall) = raise_in(alloc, blocks, floor) else {
        count_again(blocks, starts, 0);
        return Err(AllocError);
    };
    if !fall.lives {
        return Ok(fall.entries);
    }
    count_again(blocks, starts, 0);
    Ok(fall.entries)
}

/// Puts a floor, and drops what is below it. Where a block has more or fewer live names then, or blocks came or went, it counts
/// again: a step where all origins stand before that of the floor, as nothing is below it then, and else one for each block. It
/// tells how many entries there then are, where `count` is their number with the floor, before anything is dropped. Where it
/// finds no memory no entry is changed.
pub(crate) fn raise_counted(
    alloc: Global,
    blocks: &mut Vec<Block>,
    starts: &mut Vec<usize>,
    floor: Name,
    count: usize,
) -> Result<usize, AllocError>
    requires rising { IsRising (flat blocks.old.items) }
    requires count { count ≡ length (put name_cmp floor Floor (known_entries (flat blocks.old.items))) }
    requires placed { length starts.old.items ≡ length blocks.old.items }
    requires starts { AreStarts blocks.old.items starts.old.items }
    ensures ok { OnOk result
        (known_entries (flat blocks.new.items)
        ≡ above_floor floor (put name_cmp floor Floor (known_entries (flat blocks.old.items)))) }
    ensures count { IfOk result (λ count. count ≡ length (flat blocks.new.items)) }
    ensures read { (d : Declaration) → AllHeldBy d (flat blocks.old.items) → AllHeldBy d (flat blocks.new.items) }
    ensures err { OnErr result (flat blocks.new.items ≡ flat blocks.old.items) }
    ensures behind { AreOriginsBelow floor.origin (known_entries (flat blocks.old.items)) → IsGrown blocks.old.items blocks.new.items }
    ensures placed { length starts.new.items ≡ length blocks.new.items }
    ensures starts { AreStarts blocks.new.items starts.new.items }
{
    if end_before_origin(blocks, &floor) {
        put_counted(alloc, blocks, starts, floor, Held::Floor)?;
        return Ok(count);
    }
    let fall = raise_inside(alloc, blocks, starts, floor)?;
    Ok(count - fall)
}

/// The number of live names before each block.
pub(crate) fn starts_of(alloc: Global, blocks: &[Block]) -> Result<Vec<usize>, AllocError>
    requires { length (flat blocks.now) < 2 ^ 64 }
    ensures placed { IfOk result (λ starts. length starts.items ≡ length blocks.now) }
    ensures starts { IfOk result (λ starts. AreStarts blocks.now starts.items) }
{
    let mut starts = Vec::with_capacity(alloc, blocks.len())?;
    count_on(blocks, &mut starts);
    Ok(starts)
}

/// The number of live names.
pub(crate) fn live_count_in(blocks: &[Block], starts: &[usize]) -> usize
    requires few { length (flat blocks.now) < 2 ^ 64 }
    requires placed { length starts.now ≡ length blocks.now }
    requires starts { AreStarts blocks.now starts.now }
    ensures { result ≡ length (kept_in (flat blocks.now)) }
{
    next_start(blocks, starts)
}

/// The block of the live name of a number, by a binary search.
fn live_home(starts: &[usize], number: usize) -> usize
    requires some { 0 < length starts.now }
    requires first { get_or starts.now 0 0 ≤ number }
    ensures { IsLiveHome starts.now number result }
{
    let mut low = 0;
    let mut high = starts.len() - 1;
    'search: while low < high {
        let middle = high - (high - low) / 2;
        if starts[middle] <= number {
            low = middle;
        } else {
            high = middle - 1;
        }
    }
    low
}

/// The live name of a number, from 0 in the order of names, and what is kept of it.
pub(crate) fn live_in<'a>(blocks: &'a [Block], starts: &[usize], number: usize) -> (Name, &'a Kept)
    requires in_range { number < length (kept_in (flat blocks.now)) }
    requires placed { length starts.now ≡ length blocks.now }
    requires starts { AreStarts blocks.now starts.now }
    ensures { slice_get (kept_in (flat blocks.now)) number ≡ Some (result.0, result.1.now) }
{
    let k = live_home(starts, number);
    live_at(blocks[k].entries(), number - starts[k])
}
