//! Each CALLI and TTCALL number once: the calls that are listed, and the others, which stop the job.

use crate::machine::{Machine, NEXT};
use crate::rows::Row::{Calli, Calls, Refuses, Sees, Ttcall};
use crate::rows::Sight::Stopped;
use crate::rows::{Table, first_wrong, walk_all};
use job_sched::Stop;
use uuo_calls::CallOutcome::{Done, Gone};

/// EXIT.
const EXIT: u32 = 0o12;

/// LOGOUT, behind which the job is gone.
const LOGOUT: u32 = 0o17;

/// The CALLI numbers of the calls that are listed.
static CALLI: [u32; 15] = [
    0, 0o11, EXIT, LOGOUT, 0o23, 0o30, 0o31, 0o135, 0o136, 0o137, 0o151, 0o152, 0o153, 0o777_776,
    0o777_775,
];

/// The TTCALL functions that are listed.
static TTCALL: [u8; 10] = [0, 1, 2, 3, 4, 5, 0o11, 0o12, 0o13, 0o14];

/// Whether a CALLI of this number stops job 1 exactly where it is not listed, and takes it away exactly
/// where it is LOGOUT.
pub fn calls_rightly(machine: &mut Machine, e: u32) -> bool {
    let (outcome, _) = machine.calls(1, 0, e);
    let is_logout = e == LOGOUT;
    machine.is_refused() != CALLI.contains(&e)
        && (outcome == Gone) == is_logout
        && machine.is_there(1) != is_logout
}

/// Whether a TTCALL of this function is listed.
pub fn is_listed(function: u8) -> bool {
    TTCALL.contains(&function)
}

#[test]
fn each_calli(rt: HostRuntime) {
    for number in 0..0o204u32 {
        let e = if number < 0o200 {
            number
        } else {
            0o777_774 + number - 0o200
        };
        let wrong = first_wrong(&rt, rt.alloc(), 64, &[Calli(e)]);
        assert!(rt; wrong.is_none(), "CALLI {e}");
    }
}

#[test]
fn each_ttcall(rt: HostRuntime) {
    for function in 0..16u8 {
        let wrong = first_wrong(&rt, rt.alloc(), 64, &[Ttcall(function)]);
        assert!(rt; wrong.is_none(), "TTCALL {function}");
    }
}

/// The tables that are walked on a new machine each.
static TABLES: [Table; 2] = [
    Table {
        name: "exit_by_its_ac_field",
        rows: &[
            Calls(1, 0, EXIT, (Done, NEXT)),
            Sees(Stopped(1, Some(Stop::Exit))),
            Calls(1, 1, EXIT, (Done, NEXT)),
            Sees(Stopped(1, Some(Stop::Monitor))),
        ],
    },
    Table {
        name: "exit_by_no_ac_field",
        rows: &[
            Refuses(2, EXIT),
            Refuses(3, EXIT),
            Refuses(4, EXIT),
            Refuses(5, EXIT),
            Refuses(6, EXIT),
            Refuses(7, EXIT),
            Refuses(8, EXIT),
            Refuses(9, EXIT),
            Refuses(10, EXIT),
            Refuses(11, EXIT),
            Refuses(12, EXIT),
            Refuses(13, EXIT),
            Refuses(14, EXIT),
            Refuses(15, EXIT),
        ],
    },
];

#[test]
fn tables_hold(rt: HostRuntime) {
    walk_all(&rt, rt.alloc(), &TABLES);
}
