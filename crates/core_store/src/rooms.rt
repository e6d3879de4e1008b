//! Room for a job that comes or grows, in one memory.

ghost use Rattle.std.specs.Prelude.{◌≡◌, ◌+◌, ◌*◌, ◌<◌, ◌≤◌, [], length, slice_set, replicate, IsTrue};
ghost use Rattle.core_store.specs.Cores.{resized_words};
ghost use Rattle.core_store.specs.Layout.{area_of, area_words, cores_in, blocks_in, is_hole, IsLaidOut};

use crate::areas::{Area, hole_of, is_hole};
use crate::moves::{clear, move_to, pack, raise};
use word36::{BLOCK_WORDS, MOST_BLOCKS, Word};

/// The first of so many blocks that no job has. Where no hole is so large, all jobs are moved
/// together before.
fn room_for(words: &mut [Word], areas: &mut [Area], all: u32, blocks: u32) -> u32
    requires size { length words.old ≡ all * BLOCK_WORDS }
    requires most { all ≤ MOST_BLOCKS }
    requires laid_out { IsLaidOut (length words.old) areas.old }
    requires free { blocks_in areas.old + blocks ≤ all }
    ensures laid_out { IsLaidOut (length words.old) areas.new }
    ensures cores { cores_in words.new areas.new ≡ cores_in words.old areas.old }
    ensures jobs { length areas.new ≡ length areas.old }
    ensures hole { IsTrue (is_hole areas.new all (record { base = result; blocks = blocks })) }
{
    match hole_of(areas, all, blocks) {
        Some(base) => base,
        None => pack(words, areas, all),
    }
}

/// Sees to it that a job's area may have so many blocks, more than it has: where those behind it are
/// not free, it is moved to a hole that is large enough, or all jobs are moved together, and those
/// behind it upwards.
fn make_room(words: &mut [Word], areas: &mut [Area], all: u32, job: usize, blocks: u32)
    requires job { job < length areas.old }
    requires size { length words.old ≡ all * BLOCK_WORDS }
    requires most { all ≤ MOST_BLOCKS }
    requires laid_out { IsLaidOut (length words.old) areas.old }
    requires some { 1 ≤ (area_of areas.old job).blocks }
    requires more { (area_of areas.old job).blocks ≤ blocks }
    requires free { blocks_in areas.old + blocks ≤ all + (area_of areas.old job).blocks }
    ensures laid_out { IsLaidOut (length words.old) areas.new }
    ensures cores { cores_in words.new areas.new ≡ cores_in words.old areas.old }
    ensures jobs { length areas.new ≡ length areas.old }
    ensures room { IsLaidOut (length words.old)
        (slice_set areas.new job (record { base = (area_of areas.new job).base; blocks = blocks })) }
{
    let Area { base, blocks: had } = areas[job];
    let more = Area {
        base: base + had,
        blocks: blocks - had,
    };
    if is_hole(areas, all, more) {
        return;
    }
    if let Some(to) = hole_of(areas, all, blocks) {
        move_to(words, areas, job, to);
        return;
    }
    let packed = pack(words, areas, all);
    let end = areas[job].base + had;
    raise(words, areas, end, packed, blocks - had);
}

/// Gives a job without core so many blocks of zeros.
pub(crate) fn allot(words: &mut [Word], areas: &mut [Area], all: u32, job: usize, blocks: u32)
    requires job { job < length areas.old }
    requires size { length words.old ≡ all * BLOCK_WORDS }
    requires most { all ≤ MOST_BLOCKS }
    requires laid_out { IsLaidOut (length words.old) areas.old }
    requires none { (area_of areas.old job).blocks ≡ 0 }
    requires some { 1 ≤ blocks }
    requires free { blocks_in areas.old + blocks ≤ all }
    ensures laid_out { IsLaidOut (length words.old) areas.new }
    ensures jobs { length areas.new ≡ length areas.old }
    ensures cores { cores_in words.new areas.new ≡ slice_set (cores_in words.old areas.old) job (replicate (blocks * BLOCK_WORDS) 0) }
    ensures blocks { blocks_in areas.new ≡ blocks_in areas.old + blocks }
{
    let base = room_for(words, areas, all, blocks);
    let area = Area { base, blocks };
    clear(words, area);
    areas[job] = area;
}

/// Makes a job's core so many blocks: the words that fit stay, and new ones are zero.
pub(crate) fn resize(words: &mut [Word], areas: &mut [Area], all: u32, job: usize, blocks: u32)
    requires job { job < length areas.old }
    requires size { length words.old ≡ all * BLOCK_WORDS }
    requires most { all ≤ MOST_BLOCKS }
    requires laid_out { IsLaidOut (length words.old) areas.old }
    requires had_some { 1 ≤ (area_of areas.old job).blocks }
    requires some { 1 ≤ blocks }
    requires free { blocks_in areas.old + blocks ≤ all + (area_of areas.old job).blocks }
    ensures laid_out { IsLaidOut (length words.old) areas.new }
    ensures jobs { length areas.new ≡ length areas.old }
    ensures cores { cores_in words.new areas.new
        ≡ slice_set (cores_in words.old areas.old) job (resized_words (area_words words.old (area_of areas.old job)) blocks) }
    ensures blocks { blocks_in areas.new + (area_of areas.old job).blocks ≡ blocks_in areas.old + blocks }
{
    let had = areas[job].blocks;
    if blocks > had {
        make_room(words, areas, all, job, blocks);
        clear(
            words,
            Area {
                base: areas[job].base + had,
                blocks: blocks - had,
            },
        );
    }
    areas[job].blocks = blocks;
}
