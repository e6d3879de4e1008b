//! What is done with a store, row by row, with the answers worked out by hand.

use crate::core_acts::Act::{Blocks, Free, Has, Read, Write};
use crate::core_acts::Row;
use word36::JOBS;

/// All 256 blocks in one job, and one more than there are.
pub static ALL_IN_ONE: [Row; 16] = [
    (Free, Some(256)),
    (Blocks(JOBS, 257), None),
    (Blocks(JOBS, 256), Some(0)),
    (Has(JOBS), Some(256)),
    (Blocks(1, 1), None),
    (Has(1), Some(0)),
    (Blocks(JOBS, 257), None),
    (Has(JOBS), Some(256)),
    (Write(JOBS, 262_143, 7), Some(7)),
    (Read(JOBS, 262_143), Some(7)),
    (Read(JOBS, 262_144), None),
    (Write(JOBS, 262_144, 7), None),
    (Blocks(JOBS, 0), Some(256)),
    (Has(JOBS), Some(0)),
    (Read(JOBS, 0), None),
    (Blocks(JOBS, 0), Some(256)),
];

/// In 4 blocks, job 2 goes from between jobs 1 and 3 and comes back with two blocks, for which no
/// hole is large enough: all words of the others stay, and job 1 may have no more.
pub static MOVED_TOGETHER: [Row; 28] = [
    (Blocks(1, 1), Some(3)),
    (Blocks(2, 1), Some(2)),
    (Blocks(3, 1), Some(1)),
    (Write(1, 0o44, 11), Some(11)),
    (Write(1, 0o140, 12), Some(12)),
    (Write(1, 0o1777, 13), Some(13)),
    (Write(2, 0o140, 22), Some(22)),
    (Write(3, 0o44, 31), Some(31)),
    (Write(3, 0o140, 32), Some(32)),
    (Write(3, 0o1777, 33), Some(33)),
    (Blocks(2, 0), Some(2)),
    (Blocks(2, 3), None),
    (Blocks(2, 2), Some(0)),
    (Read(2, 0o140), Some(0)),
    (Read(2, 0o1777), Some(0)),
    (Read(2, 0o2000), Some(0)),
    (Read(2, 0o3777), Some(0)),
    (Read(2, 0o4000), None),
    (Read(1, 0o44), Some(11)),
    (Read(1, 0o140), Some(12)),
    (Read(1, 0o1777), Some(13)),
    (Read(3, 0o44), Some(31)),
    (Read(3, 0o140), Some(32)),
    (Read(3, 0o1777), Some(33)),
    (Blocks(1, 2), None),
    (Has(1), Some(1)),
    (Read(1, 0o1777), Some(13)),
    (Free, Some(0)),
];

/// In 8 blocks, a job grows in its place, then where those behind it are another's, by a hole
/// elsewhere, and at last where all must be moved.
pub static GROWN: [Row; 32] = [
    (Blocks(1, 1), Some(7)),
    (Write(1, 1023, 1), Some(1)),
    (Blocks(1, 2), Some(6)),
    (Read(1, 1023), Some(1)),
    (Read(1, 1024), Some(0)),
    (Write(1, 2047, 2), Some(2)),
    (Blocks(2, 1), Some(5)),
    (Write(2, 0, 3), Some(3)),
    (Write(2, 1023, 4), Some(4)),
    // To a hole behind job 2, so that blocks 0 and 1 are free.
    (Blocks(1, 3), Some(4)),
    (Read(1, 1023), Some(1)),
    (Read(1, 2047), Some(2)),
    (Read(1, 2048), Some(0)),
    (Write(1, 3071, 5), Some(5)),
    (Blocks(3, 1), Some(3)),
    (Write(3, 0, 6), Some(6)),
    (Write(3, 1023, 7), Some(7)),
    // Two blocks behind job 1 and one before job 2: all are moved.
    (Blocks(2, 4), Some(0)),
    (Read(2, 0), Some(3)),
    (Read(2, 1023), Some(4)),
    (Read(2, 1024), Some(0)),
    (Read(2, 4095), Some(0)),
    (Read(1, 1023), Some(1)),
    (Read(1, 2047), Some(2)),
    (Read(1, 3071), Some(5)),
    (Read(3, 0), Some(6)),
    (Read(3, 1023), Some(7)),
    (Blocks(3, 2), None),
    (Blocks(2, 1), Some(3)),
    (Blocks(3, 4), Some(0)),
    (Read(3, 1023), Some(7)),
    (Read(3, 1024), Some(0)),
];

/// New core holds no words of the job itself from before, nor of another.
pub static NEW_CORE: [Row; 17] = [
    (Blocks(1, 2), Some(2)),
    (Write(1, 0, 1), Some(1)),
    (Write(1, 1023, 2), Some(2)),
    (Write(1, 1024, 3), Some(3)),
    (Write(1, 2047, 4), Some(4)),
    (Write(1, 2048, 5), None),
    (Blocks(1, 1), Some(3)),
    (Read(1, 1024), None),
    (Blocks(1, 2), Some(2)),
    (Read(1, 1023), Some(2)),
    (Read(1, 1024), Some(0)),
    (Read(1, 2047), Some(0)),
    (Blocks(1, 0), Some(4)),
    (Blocks(2, 4), Some(0)),
    (Read(2, 0), Some(0)),
    (Read(2, 1023), Some(0)),
    (Read(2, 2047), Some(0)),
];
