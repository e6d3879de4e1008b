//! Each operation once.

use crate::SliceCore;
use crate::slice_core::{USER, fresh, put};
use ka_cpu::step;
use ka_state::{Outcome, StopReason};
use word36::Word;

/// What an operation with AC 1 and E 200 octal comes to here, by the table of the manual's operations that this
/// project has: AC 1 is no AC of JRST, and XCT meets a word of operation 0.
#[derive(Clone, Copy, Debug, PartialEq, Eq)]
enum Kind {
    Done,
    Call,
    LeftOut,
}

/// The operations that are executed or are calls, by their first and last; all others are left out.
const LISTED: [(u64, u64, Kind); 17] = [
    (0o047, 0o047, Kind::Call),
    (0o051, 0o051, Kind::Call),
    (0o133, 0o137, Kind::Done),
    (0o200, 0o217, Kind::Done),
    (0o220, 0o233, Kind::Done),
    (0o240, 0o243, Kind::Done),
    (0o245, 0o246, Kind::Done),
    (0o250, 0o253, Kind::Done),
    (0o255, 0o255, Kind::Done),
    (0o260, 0o267, Kind::Done),
    (0o270, 0o277, Kind::Done),
    (0o300, 0o317, Kind::Done),
    (0o320, 0o337, Kind::Done),
    (0o340, 0o377, Kind::Done),
    (0o400, 0o477, Kind::Done),
    (0o500, 0o577, Kind::Done),
    (0o600, 0o677, Kind::Done),
];

fn wanted(op: u64) -> Kind {
    for (first, last, kind) in LISTED {
        if first <= op && op <= last {
            return kind;
        }
    }
    Kind::LeftOut
}

fn found(op: u64) -> Option<Kind> {
    let mut core = [Word::new(0); 1024];
    let mut regs = fresh(USER);
    put(&mut regs, &mut core, 1, 0o000005_000300);
    put(
        &mut regs,
        &mut core,
        0o140,
        op % 0o1000 * 0o1_000_000_000 + 0o40_000_200,
    );
    put(&mut regs, &mut core, 0o200, 0o000000_000301);
    let mut memory = SliceCore::new(&mut core);
    match step(&mut regs, &mut memory) {
        Outcome::Done => Some(Kind::Done),
        Outcome::Call(_, 1, 0o200) => Some(Kind::Call),
        Outcome::Stop(StopReason::IllegalInstruction) => Some(Kind::LeftOut),
        _ => None,
    }
}

#[test]
fn families(rt: HostRuntime) {
    for op in 0..0o1000u64 {
        assert_eq!(rt; found(op), Some(wanted(op)), "{op:o}");
    }
}
