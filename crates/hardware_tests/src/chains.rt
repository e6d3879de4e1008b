//! Chains of indirect words, and bytes in turn.

use crate::SliceCore;
use crate::slice_core::{USER, fresh, look, put};
use ka_cpu::step;
use ka_state::{Outcome, Regs, StopReason};
use word36::Word;

/// MOVE 1,@200 with a chain of so many indirect words from 200 octal on, the last of which names 1000
/// octal, where 7 stands; or, where `open` is true, an address past core through one word more.
fn follow(links: usize, open: bool) -> (Regs, Outcome) {
    let mut core = [Word::new(0); 1024];
    let mut regs = fresh(USER);
    put(&mut regs, &mut core, 0o140, 0o200060_000200);
    put(&mut regs, &mut core, 0o1000, 7);
    for link in 0..300usize {
        if link + 1 < links {
            put(
                &mut regs,
                &mut core,
                0o200 + link,
                0o000020_000201 + link as u64,
            );
        } else if link + 1 == links {
            let last = if open {
                0o000020_777777
            } else {
                0o000000_001000
            };
            put(&mut regs, &mut core, 0o200 + link, last);
        }
    }
    let mut memory = SliceCore::new(&mut core);
    let outcome = step(&mut regs, &mut memory);
    (regs, outcome)
}

#[test]
fn long_chains(rt: HostRuntime) {
    let (regs, outcome) = follow(256, false);
    assert_eq!(rt; outcome, Outcome::Done);
    assert_eq!(rt; regs.ac[1].number(), 7);
    let (regs, outcome) = follow(257, false);
    assert_eq!(rt; outcome, Outcome::Stop(StopReason::AddressChain));
    assert_eq!(rt; regs.pc.number(), 0o140);
    let (_, outcome) = follow(256, true);
    assert_eq!(rt; outcome, Outcome::Stop(StopReason::AddressChain));
    let (_, outcome) = follow(255, true);
    assert_eq!(rt; outcome, Outcome::Stop(StopReason::IllegalAddress));
}

/// Six ILDBs by the pointer at 200 octal, and the pointer after each.
#[test]
fn bytes_in_turn(rt: HostRuntime) {
    let mut core = [Word::new(0); 1024];
    let mut regs = fresh(USER);
    put(&mut regs, &mut core, 0o200, 0o440700_001000);
    for address in 0o140..0o146usize {
        put(&mut regs, &mut core, address, 0o134100_000200);
    }
    let pointers = [
        0o350700_001000,
        0o260700_001000,
        0o170700_001000,
        0o100700_001000,
        0o010700_001000,
        0o350700_001001,
    ];
    for pointer in pointers {
        let mut memory = SliceCore::new(&mut core);
        let outcome = step(&mut regs, &mut memory);
        assert_eq!(rt; outcome, Outcome::Done);
        assert_eq!(rt; look(&regs, &core, 0o200), pointer);
    }
}
