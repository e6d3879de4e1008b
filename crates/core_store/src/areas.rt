//! Where the jobs lie in one memory, and the holes between them.

ghost use Rattle.std.specs.Prelude.{◌≡◌, ◌+◌, ◌<◌, ◌≤◌, ℕ, length, IsTrue, IfSome, None};
ghost use Rattle.std.specs.List.{list_all};
ghost use Rattle.core_store.specs.Layout.{area_of, lie_apart, is_hole};

/// Some blocks that follow one another.
#[derive(Clone, Copy)]
pub(crate) struct Area {
    /// The first of them.
    pub base: u32,
    /// How many there are.
    pub blocks: u32,
}

impl Area {
    /// No blocks.
    pub const NONE: Area = Area { base: 0, blocks: 0 };

    /// The block behind the last.
    fn end(self) -> u64
        ensures { result ≡ self.base + self.blocks }
    {
        u64::from(self.base) + u64::from(self.blocks)
    }

    /// Whether two areas have no block in common.
    fn lies_apart(self, other: Area) -> bool
        ensures { result ≡ lie_apart self other }
    {
        self.end() <= u64::from(other.base) || other.end() <= u64::from(self.base)
    }
}

/// Whether no job has a block of an area.
fn is_clear(areas: &[Area], hole: Area) -> bool
    ensures { result ≡ list_all (λ a. lie_apart a hole) areas.now }
{
    areas.iter().all(|area| area.lies_apart(hole))
}

/// Whether an area is among so many blocks, and no job has one of its blocks.
pub(crate) fn is_hole(areas: &[Area], all: u32, hole: Area) -> bool
    ensures { result ≡ is_hole areas.now all hole }
{
    hole.end() <= u64::from(all) && is_clear(areas, hole)
}

/// A block, 0 or the one behind a job, from which on so many blocks are free.
pub(crate) fn hole_of(areas: &[Area], all: u32, blocks: u32) -> Option<u32>
    ensures { IfSome result (λ base. IsTrue (is_hole areas.now all (record { base = base; blocks = blocks }))) }
{
    if is_hole(areas, all, Area { base: 0, blocks }) {
        return Some(0);
    }
    for area in areas {
        let end = area.end();
        if end <= u64::from(all) {
            let base = end as u32;
            if is_hole(areas, all, Area { base, blocks }) {
                return Some(base);
            }
        }
    }
    None
}

/// The job whose area begins at a block.
pub(crate) fn job_at(areas: &[Area], block: u32) -> Option<usize>
    ensures found { IfSome result (λ job. (job < length areas.now)
        × ((area_of areas.now job).base ≡ block) × (1 ≤ (area_of areas.now job).blocks)) }
    ensures none { result ≡ None → (k : ℕ) → k < length areas.now → (area_of areas.now k).base ≡ block → (area_of areas.now k).blocks ≡ 0 }
{
    for (job, area) in areas.iter().enumerate() {
        if area.base == block && area.blocks > 0 {
            return Some(job);
        }
    }
    None
}
