//! TTCALL functions: what they put and read, their empty steps, and illegal addresses.

use crate::machine::{BACK, NEXT, SKIPPED};
use crate::rows::Act::{Outputs, Stores, Types};
use crate::rows::Row::{Does, Sees, Takes, Tty};
use crate::rows::Sight::{Ac, Room, Stopped, Word};
use crate::rows::{Table, walk_all};
use job_sched::{Stop, Wait};
use ka_state::StopReason::IllegalAddress;
use uuo_calls::CallOutcome;

const INCHRW: u8 = 0;

const OUTCHR: u8 = 1;

const INCHRS: u8 = 2;

const OUTSTR: u8 = 3;

const INCHWL: u8 = 4;

const INCHSL: u8 = 5;

const CLRBFI: u8 = 0o11;

const CLRBFO: u8 = 0o12;

const SKPINC: u8 = 0o13;

const SKPINL: u8 = 0o14;

/// How a call ends, the PC and the wait.
type End = (CallOutcome, u32, Wait);

const DONE: End = (CallOutcome::Done, NEXT, Wait::None);

const DONE_WITH_SKIP: End = (CallOutcome::Done, SKIPPED, Wait::None);

/// The job is stopped at its call.
const STOPPED: End = (CallOutcome::Done, BACK, Wait::None);

const ILLEGAL: Option<Stop> = Some(Stop::Fault(IllegalAddress));

/// Five characters, of which none is a zero.
const TEXT: u64 = 0o406030_140602;

/// The tables that are walked on a new machine each.
static TABLES: [Table; 5] = [
    // `OUTSTR [ASCIZ /HI/]`: the literal is 442220,,000000.
    Table {
        name: "hi",
        rows: &[
            Does(Stores(1, 0o143, &[0o442220_000000])),
            Tty(OUTSTR, 0o143, DONE),
            Takes(64, b"HI"),
            Takes(64, b""),
        ],
    },
    // 511 characters are in the ring: two more do not fit, and neither is put; after one was taken both
    // are.
    Table {
        name: "text_waits_for_room",
        rows: &[
            Does(Outputs(511)),
            Does(Stores(1, 0o143, &[0o442220_000000])),
            Tty(OUTSTR, 0o143, (CallOutcome::Empty, BACK, Wait::Room(2))),
            Sees(Room(1)),
            Takes(1, b"X"),
            Tty(OUTSTR, 0o143, DONE),
            Sees(Room(0)),
            Tty(OUTCHR, 0o143, (CallOutcome::Empty, BACK, Wait::Room(1))),
            // An empty text needs no room.
            Does(Stores(1, 0o144, &[0])),
            Tty(OUTSTR, 0o144, DONE),
            Tty(CLRBFO, 0, DONE),
            Sees(Room(512)),
            // The low seven bits of the word.
            Tty(OUTCHR, 0o143, DONE),
            Takes(64, b"\0"),
        ],
    },
    // A text without a zero is read up to its 512th character, in the 103rd of its words: from 1631 octal
    // on they all lie in a core of one block, from 1632 on the last does not.
    Table {
        name: "text_of_512_characters",
        rows: &[
            Does(Stores(1, 0o1631, &[TEXT; 103])),
            Tty(OUTSTR, 0o1631, DONE),
            Sees(Room(0)),
            // Its last word is at 2000.
            Tty(OUTSTR, 0o1632, STOPPED),
            Sees(Stopped(1, ILLEGAL)),
        ],
    },
    Table {
        name: "characters_are_read",
        rows: &[
            Does(Types(b"AB\x0aC")),
            Tty(SKPINC, 0, DONE_WITH_SKIP),
            Tty(SKPINL, 0, DONE_WITH_SKIP),
            Tty(INCHRW, 0o200, DONE),
            Sees(Word(1, 0o200, Some(0o101))),
            Tty(INCHSL, 5, DONE_WITH_SKIP),
            Sees(Ac(1, 5, 0o102)),
            Tty(INCHWL, 0o201, DONE),
            Sees(Word(1, 0o201, Some(0o12))),
            Tty(SKPINL, 0, DONE),
            // No line: neither store nor skip.
            Tty(INCHSL, 0o202, DONE),
            Sees(Word(1, 0o202, Some(0))),
            Tty(INCHWL, 0o202, (CallOutcome::Empty, BACK, Wait::Line)),
            Tty(INCHRS, 0o202, DONE_WITH_SKIP),
            Sees(Word(1, 0o202, Some(0o103))),
            Tty(INCHRS, 0o203, DONE),
            Sees(Word(1, 0o203, Some(0))),
            Tty(INCHRW, 0o203, (CallOutcome::Empty, BACK, Wait::Char)),
            Tty(SKPINC, 0, DONE),
            Does(Types(b"D\x0a")),
            Tty(CLRBFI, 0, DONE),
            Tty(SKPINC, 0, DONE),
        ],
    },
    // An address past core stops the job, also where there is no character and no room.
    Table {
        name: "illegal_places",
        rows: &[
            Tty(INCHRW, 0o2000, STOPPED),
            Sees(Stopped(1, ILLEGAL)),
            Tty(INCHRW, 0o777_777, STOPPED),
            Tty(OUTCHR, 0o2000, STOPPED),
            Sees(Stopped(1, ILLEGAL)),
            Tty(OUTCHR, 0o777_777, STOPPED),
            Tty(INCHRS, 0o2000, STOPPED),
            Sees(Stopped(1, ILLEGAL)),
            Tty(INCHRS, 0o777_777, STOPPED),
            Tty(OUTSTR, 0o2000, STOPPED),
            Sees(Stopped(1, ILLEGAL)),
            Tty(OUTSTR, 0o777_777, STOPPED),
            Tty(INCHWL, 0o2000, STOPPED),
            Sees(Stopped(1, ILLEGAL)),
            Tty(INCHWL, 0o777_777, STOPPED),
            Tty(INCHSL, 0o2000, STOPPED),
            Sees(Stopped(1, ILLEGAL)),
            Tty(INCHSL, 0o777_777, STOPPED),
        ],
    },
];

#[test]
fn tables_hold(rt: HostRuntime) {
    walk_all(&rt, rt.alloc(), &TABLES);
}
