//! The bars of a picture.
ghost use Rattle.std.specs.Prelude.{◌≡◌, ◌<◌, ◌^◌, ◌++◌, map, OnOk};
ghost use Rattle.std.specs.List.{flat_map, list_any};
ghost use Rattle.lock_bars.specs.Holds.{same_hold};
ghost use Rattle.lock_bars.specs.Bars.{bars_after, begins_with_grant, started, ends_at_grant, extended, same_lane, shows};

use crate::holds::{Hold, holds_in};
use lock_queue::LockTable;
use std::alloc::{AllocError, Global};

/// A holding, and the columns of a picture over which it lasts.
#[derive(Drop)]
pub struct Bar {
    /// The job, the lock, and whether the job owns it or waits for it.
    pub hold: Hold,
    /// The first column that shows it, counted from 1.
    pub from: usize,
    /// The column behind the last one that shows it.
    pub until: usize,
}

/// Whether a holding is one of these.
fn is_held(holds: &[Hold], hold: &Hold) -> bool
    ensures { result ≡ list_any (same_hold hold.now) holds.now }
{
    holds.iter().any(|other| hold.is_same(other))
}

/// Extends a bar over a line, where it reaches to that line and its holding is still there after it.
fn extend(bar: &mut Bar, line: usize, holds: &[Hold])
    requires { line < 2 ^ 63 }
    ensures { bar.new ≡ extended line holds.now bar.old }
{
    if bar.until == line && is_held(holds, &bar.hold) {
        bar.until = line + 1;
    }
}

fn extend_all(bars: &mut [Bar], line: usize, holds: &[Hold])
    requires { line < 2 ^ 63 }
    ensures { bars.new ≡ map (extended line holds.now) bars.old }
{
    for bar in bars.iter_mut() {
        extend(bar, line, holds);
    }
}

/// Whether a bar shows this holding and ends with this line.
fn shows(bar: &Bar, line: usize, hold: &Hold) -> bool
    requires { line < 2 ^ 63 }
    ensures { result ≡ shows line hold.now bar.now }
{
    bar.until == line + 1 && bar.hold.is_same(hold)
}

fn is_shown(bars: &[Bar], line: usize, hold: &Hold) -> bool
    requires { line < 2 ^ 63 }
    ensures { result ≡ list_any (shows line hold.now) bars.now }
{
    for bar in bars {
        if shows(bar, line, hold) {
            return true;
        }
    }
    false
}

/// Starts a bar at a line for a holding, unless a bar shows it already.
fn push_started(
    added: &mut Vec<Bar>,
    bars: &[Bar],
    line: usize,
    hold: &Hold,
) -> Result<(), AllocError>
    requires { line < 2 ^ 63 }
    ensures { OnOk result (added.new.items ≡ added.old.items ++ started line bars.now hold.now) }
{
    if !is_shown(bars, line, hold) {
        added.push(Bar {
            hold: hold.copied(),
            from: line,
            until: line + 1,
        })?;
    }
    Ok(())
}

/// Starts a bar at a line for each holding that no bar shows.
fn push_all_started(
    added: &mut Vec<Bar>,
    bars: &[Bar],
    line: usize,
    holds: &[Hold],
) -> Result<(), AllocError>
    requires { line < 2 ^ 63 }
    ensures { OnOk result (added.new.items ≡ added.old.items ++ flat_map (started line bars.now) holds.now) }
{
    for hold in holds {
        push_started(added, bars, line, hold)?;
    }
    Ok(())
}

/// Extends each bar whose holding lasts past the line; starts one for each new holding. The table is as
/// the line has left it. Lines are numbered below 2^63.
pub fn record_line<L: LockTable>(
    alloc: Global,
    bars: &mut Vec<Bar>,
    line: usize,
    table: &L,
) -> Result<(), AllocError>
    requires { line < 2 ^ 63 }
    ensures { OnOk result (bars.new.items ≡ bars_after line bars.old.items (L.requests table.now)) }
{
    let holds = holds_in(alloc, table)?;
    extend_all(bars.as_mut_slice(), line, holds.as_slice());
    let mut added = Vec::new(alloc);
    push_all_started(&mut added, bars.as_slice(), line, holds.as_slice())?;
    bars.append(&mut added)?;
    Ok(())
}

impl Bar {
    /// Whether another bar has the same job and the same lock.
    pub fn is_beside(&self, other: &Bar) -> bool
        ensures { result ≡ same_lane self.now other.now }
    {
        self.hold.job == other.hold.job && self.hold.key == other.hold.key
    }

    /// Whether its job owns the lock from the line on at which an earlier bar, of the wait for it, ends.
    fn is_grant_behind(&self, earlier: &Bar) -> bool
        ensures { result ≡ ends_at_grant self.now earlier.now }
    {
        !earlier.hold.owns && earlier.until == self.from && self.is_beside(earlier)
    }

    fn ends_wait(&self, bars: &[Bar]) -> bool
        ensures { result ≡ list_any (ends_at_grant self.now) bars.now }
    {
        for earlier in bars {
            if self.is_grant_behind(earlier) {
                return true;
            }
        }
        false
    }

    /// Whether it starts with a grant for which its job waited.
    pub fn is_granted(&self, bars: &[Bar]) -> bool
        ensures { result ≡ begins_with_grant bars.now self.now }
    {
        self.hold.owns && self.ends_wait(bars)
    }
}
