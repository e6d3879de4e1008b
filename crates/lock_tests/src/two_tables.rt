//! The same calls on the plain table and on the indexed one: each reply and each list is compared. One function has the
//! two tables, since each that owns two is dear to prove.
ghost use Rattle.std.specs.Prelude.{◌≤◌};
ghost use Rattle.word36.specs.declared.sizes.TheConstants.{MOST_REQUESTS};

use crate::shows::ask_by_scopes;
use crate::walk::{Row, Table, walk_one};
use lock_queue::{LockTable, Request, Want};
use lock_table::IndexedTable;
use plain_table::PlainTable;
use std::alloc::Global;
use std::process::Abort;
use word36::MOST_REQUESTS;

/// How many requests the tables have room for on which most rows are walked.
const ROOM: usize = 256;

/// What is done to two tables without requests.
#[derive(Clone, Copy)]
pub enum Trial<'a> {
    /// The rows of a table of this name are walked on both, and after each the two hold the same.
    Rows(&'a str, &'a [Row<'a>]),
    /// Rows are walked on the plain table and others on the indexed one, and then the two do not hold the same.
    Apart(&'a [Row<'a>], &'a [Row<'a>]),
    /// Three jobs ask for the lock of one name in three scopes.
    Scopes,
}

/// Whether two wants are the same.
fn is_same_want(v: &Want, w: &Want) -> bool {
    v.key.is_same(&w.key)
        && v.shared == w.shared
        && v.group == w.group
        && v.bypass == w.bypass
        && v.level == w.level
        && v.pool == w.pool
}

/// Whether two lists of wants are the same.
fn are_same_wants(vs: &[Want], ws: &[Want]) -> bool {
    if vs.len() != ws.len() {
        return false;
    }
    for (i, v) in vs.iter().enumerate() {
        if !is_same_want(v, &ws[i]) {
            return false;
        }
    }
    true
}

/// Whether two requests are the same.
fn is_same_request(a: &Request, b: &Request) -> bool {
    let is_same_head = a.job == b.job
        && a.id == b.id
        && a.kind == b.kind
        && a.notified == b.notified;
    is_same_head && are_same_wants(a.wants.as_slice(), b.wants.as_slice())
}

/// Whether two tables hold the same requests in the same order, granted alike.
fn hold_the_same<L: LockTable, M: LockTable>(a: &L, b: &M) -> bool {
    if a.len() != b.len() {
        return false;
    }
    for i in 0..a.len() {
        if a.granted(i) != b.granted(i) || !is_same_request(a.request(i), b.request(i)) {
            return false;
        }
    }
    true
}

/// Walks rows on two tables: each holds of both, and after it both hold the same.
fn walk_both<L: LockTable, M: LockTable>(
    rt: &impl Abort,
    plain: &mut L,
    indexed: &mut M,
    name: &str,
    rows: &[Row],
) {
    for (i, row) in rows.iter().enumerate() {
        assert!(rt; row.holds(plain), "{name}, row {i} on the plain table");
        assert!(rt; row.holds(indexed), "{name}, row {i} on the indexed table");
        assert!(rt; hold_the_same(plain, indexed), "{name}, behind row {i}");
    }
}

/// Makes a trial of two tables.
fn make<L: LockTable, M: LockTable>(rt: &impl Abort, mut plain: L, mut indexed: M, trial: Trial) {
    let (plain, indexed) = (&mut plain, &mut indexed);
    match trial {
        Trial::Rows(name, rows) => walk_both(rt, plain, indexed, name, rows),
        Trial::Apart(first, second) => {
            walk_one(rt, plain, first);
            walk_one(rt, indexed, second);
            assert!(rt; !hold_the_same(plain, indexed));
        }
        Trial::Scopes => {
            ask_by_scopes(rt, plain);
            ask_by_scopes(rt, indexed);
            assert!(rt; hold_the_same(plain, indexed));
        }
    }
}

/// Makes a trial of both tables, which have room for so many requests.
pub fn on_both<const REQS: usize>(rt: &impl Abort, alloc: Global, trial: Trial)
    requires least { 1 ≤ REQS }
    requires most { REQS ≤ MOST_REQUESTS }
{
    let plain: PlainTable<REQS> = PlainTable::new(alloc).expect(rt, "memory for a table");
    let indexed: IndexedTable<REQS> = IndexedTable::new(alloc).expect(rt, "memory for a table");
    make(rt, plain, indexed, trial);
}

/// Makes a trial of both tables with room for `ROOM` requests.
pub fn on_tables(rt: &impl Abort, alloc: Global, trial: Trial) {
    on_both::<ROOM>(rt, alloc, trial);
}

/// Walks rows on both tables.
pub fn walk(rt: &impl Abort, alloc: Global, rows: &[Row]) {
    on_tables(rt, alloc, Trial::Rows("this table", rows));
}

/// Walks the rows of each table on two new ones.
pub fn walk_all(rt: &impl Abort, alloc: Global, tables: &[Table]) {
    for table in tables {
        on_tables(rt, alloc, Trial::Rows(table.name, table.rows));
    }
}
