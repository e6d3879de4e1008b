//! Jobs moved about in one memory. No move changes a job's words.

ghost use Rattle.std.specs.Prelude.{◌≡◌, ◌+◌, ◌*◌, ◌<◌, ◌≤◌, ℕ, length, map, slice_index, slice_set};
ghost use Rattle.std.specs.List.{SameBelow, SameFrom};
ghost use Rattle.core_store.specs.Layout.{area_of, cores_in, blocks_in, raised, IsLaidOut};

use crate::areas::{Area, job_at};
use word36::{BLOCK_WORDS, MOST_BLOCKS, Word};

/// Moves a job's words to other blocks, of which no other job has one.
pub(crate) fn move_to(words: &mut [Word], areas: &mut [Area], job: usize, to: u32)
    requires job { job < length areas.old }
    requires most { length words.old ≤ MOST_BLOCKS * BLOCK_WORDS }
    requires laid_out { IsLaidOut (length words.old) areas.old }
    requires next { IsLaidOut (length words.old) (slice_set areas.old job (record { base = to; blocks = (area_of areas.old job).blocks })) }
    ensures areas { areas.new ≡ slice_set areas.old job (record { base = to; blocks = (area_of areas.old job).blocks }) }
    ensures cores { cores_in words.new areas.new ≡ cores_in words.old areas.old }
{
    let Area { base, blocks } = areas[job];
    let from = base as usize * BLOCK_WORDS;
    let until = from + blocks as usize * BLOCK_WORDS;
    words.copy_within(from..until, to as usize * BLOCK_WORDS);
    areas[job].base = to;
}

/// Moves all jobs together: downwards, from block 0 on, in the order in which they lie, so that
/// none is written over before it is moved. The first block behind them.
pub(crate) fn pack(words: &mut [Word], areas: &mut [Area], all: u32) -> u32
    requires size { length words.old ≡ all * BLOCK_WORDS }
    requires most { all ≤ MOST_BLOCKS }
    requires laid_out { IsLaidOut (length words.old) areas.old }
    ensures laid_out { IsLaidOut (length words.old) areas.new }
    ensures cores { cores_in words.new areas.new ≡ cores_in words.old areas.old }
    ensures jobs { length areas.new ≡ length areas.old }
    ensures packed { result ≡ blocks_in areas.new }
    ensures below { (k : ℕ) → k < length areas.new → (area_of areas.new k).base + (area_of areas.new k).blocks ≤ result }
{
    let mut packed = 0;
    for block in 0..all {
        if let Some(job) = job_at(areas, block) {
            move_to(words, areas, job, packed);
            packed += areas[job].blocks;
        }
    }
    packed
}

/// Moves the jobs that lie from a block on upwards by so many blocks, all at once.
pub(crate) fn raise(words: &mut [Word], areas: &mut [Area], from: u32, end: u32, by: u32)
    requires some { 1 ≤ from }
    requires order { from ≤ end }
    requires room { end * BLOCK_WORDS + by * BLOCK_WORDS ≤ length words.old }
    requires most { length words.old ≤ MOST_BLOCKS * BLOCK_WORDS }
    requires laid_out { IsLaidOut (length words.old) areas.old }
    requires sides { (k : ℕ) → k < length areas.old
        → from < (area_of areas.old k).base + (area_of areas.old k).blocks → from ≤ (area_of areas.old k).base }
    requires below { (k : ℕ) → k < length areas.old → (area_of areas.old k).base + (area_of areas.old k).blocks ≤ end }
    ensures laid_out { IsLaidOut (length words.old) areas.new }
    ensures areas { areas.new ≡ map (raised from by) areas.old }
    ensures cores { cores_in words.new areas.new ≡ cores_in words.old areas.old }
{
    words.copy_within(
        from as usize * BLOCK_WORDS..end as usize * BLOCK_WORDS,
        (from + by) as usize * BLOCK_WORDS,
    );
    for area in areas.iter_mut() {
        if area.base >= from {
            area.base += by;
        }
    }
}

/// Makes the words of some blocks zero.
pub(crate) fn clear(words: &mut [Word], area: Area)
    requires within { area.base * BLOCK_WORDS + area.blocks * BLOCK_WORDS ≤ length words.old }
    requires most { length words.old ≤ MOST_BLOCKS * BLOCK_WORDS }
    ensures zeros { (k : ℕ) → k < area.blocks * BLOCK_WORDS → slice_index words.new (area.base * BLOCK_WORDS + k) ≡ 0 }
    ensures before { SameBelow words.old words.new (area.base * BLOCK_WORDS) }
    ensures behind { SameFrom words.old words.new (area.base * BLOCK_WORDS + area.blocks * BLOCK_WORDS) }
{
    let from = area.base as usize * BLOCK_WORDS;
    let until = from + area.blocks as usize * BLOCK_WORDS;
    words[from..until].fill(Word::new(0));
}
