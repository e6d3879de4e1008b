//! What is said of a bar where a pointer rests on it.
ghost use Rattle.std.specs.Prelude.{◌≡◌, Some};
ghost use Rattle.lock_svg.specs.Words.{amount_text, bar_text, column_at, group_text, how_text, last_before, shared_text};
ghost use Rattle.lock_svg.specs.Words.{span_text, text_of, who_text};

use crate::along::Along;
use lock_bars::{Bar, Column, Hold};
use lock_queue::Group;
use std::fmt;

/// Which job a holding is of, and what it does.
#[derive(Clone, Copy)]
struct WhoText<'a>(&'a Hold);

impl fmt::Display for WhoText<'_> {
    ghost output = { λ w. Some (who_text w.0.now) };

    fn fmt<W: fmt::Write>(&self, f: &mut fmt::Formatter<W>) -> fmt::Result {
        let job = self.0.job;
        if self.0.owns {
            write!(f, "job {job} owns")
        } else {
            write!(f, "job {job} waits for")
        }
    }
}

/// That others may own the lock at the same time, where that is so.
#[derive(Clone, Copy)]
struct SharedText(bool);

impl fmt::Display for SharedText {
    ghost output = { λ s. Some (shared_text s.0) };

    fn fmt<W: fmt::Write>(&self, f: &mut fmt::Formatter<W>) -> fmt::Result {
        if self.0 {
            f.write_str(", shared")
        } else {
            Ok(())
        }
    }
}

/// The group of those who share a lock, where there is one.
#[derive(Clone, Copy)]
struct GroupText(Group);

impl fmt::Display for GroupText {
    ghost output = { λ g. Some (group_text g.0) };

    fn fmt<W: fmt::Write>(&self, f: &mut fmt::Formatter<W>) -> fmt::Result {
        let group = self.0.number();
        if group > 0 {
            write!(f, " in group {group}")
        } else {
            Ok(())
        }
    }
}

/// How much of a pool is held; 0 where the lock is no pool.
#[derive(Clone, Copy)]
struct AmountText(u32);

impl fmt::Display for AmountText {
    ghost output = { λ a. Some (amount_text a.0) };

    fn fmt<W: fmt::Write>(&self, f: &mut fmt::Formatter<W>) -> fmt::Result {
        let amount = self.0;
        if amount > 0 {
            write!(f, ", {amount} of a pool")
        } else {
            Ok(())
        }
    }
}

/// In which way a lock is held.
#[derive(Clone, Copy)]
struct HowText<'a>(&'a Hold);

impl fmt::Display for HowText<'_> {
    ghost output = { λ h. Some (how_text h.0.now) };

    fn fmt<W: fmt::Write>(&self, f: &mut fmt::Formatter<W>) -> fmt::Result {
        let shared = SharedText(self.0.shared);
        let group = GroupText(self.0.group);
        let amount = AmountText(self.0.amount);
        write!(f, "{shared}{group}{amount}")
    }
}

/// How long a lock is held.
#[derive(Clone, Copy)]
struct SpanText<'a> {
    /// The word for a column.
    unit: &'a str,
    /// The first column.
    from: Column,
    /// The last.
    last: Column,
}

impl fmt::Display for SpanText<'_> {
    ghost output = { λ s. Some (span_text s.unit.now s.from s.last) };

    fn fmt<W: fmt::Write>(&self, f: &mut fmt::Formatter<W>) -> fmt::Result {
        let (unit, from, last) = (self.unit, self.from, self.last);
        write!(f, ", {unit}s {from} to {last}")
    }
}

/// What is said of a bar: who owns which lock, or waits for it, in which way, and how long.
#[derive(Clone, Copy)]
pub struct BarText<'a> {
    /// The job, and what it does.
    pub hold: &'a Hold,
    /// The lock's name.
    pub label: &'a str,
    /// The word for a column.
    pub unit: &'a str,
    /// The first column that shows it.
    pub from: Column,
    /// The last.
    pub last: Column,
}

impl fmt::Display for BarText<'_> {
    ghost output = { λ t. Some (bar_text t.hold.now t.label.now t.unit.now t.from t.last) };

    #[tactic(auto, unfolding(crate::specs::Words::bar_text))]
    fn fmt<W: fmt::Write>(&self, f: &mut fmt::Formatter<W>) -> fmt::Result {
        let (who, label, how) = (WhoText(self.hold), self.label, HowText(self.hold));
        let span = SpanText {
            unit: self.unit,
            from: self.from,
            last: self.last,
        };
        write!(f, "{who} {label}{how}{span}")
    }
}

/// The column of this number, counted from 1.
fn column_at(columns: &[Column], number: usize) -> Option<Column>
    ensures { result ≡ column_at columns.now number }
{
    columns.get(number.saturating_sub(1)).copied()
}

/// The last line or tick of a bar that ends before a column. A tick of a run that has no column leaves the locks as they
/// were, so a bar lasts until the tick before that of the next column.
fn last_before(along: Along, columns: &[Column], until: usize) -> Option<Column>
    ensures { result ≡ last_before along columns.now until }
{
    match (along, column_at(columns, until)) {
        (Along::Script, _) => column_at(columns, until.saturating_sub(1)),
        (Along::Run, Some(next)) => Some(Column::of_line(next.line.saturating_sub(1))),
        (Along::Run, None) => columns.last().copied(),
    }
}

impl<'a> BarText<'a> {
    /// What is said of a bar whose lock has this label.
    pub fn of(along: Along, columns: &[Column], bar: &'a Bar, label: &'a str) -> Self
        ensures { bar_text result.hold.now result.label.now result.unit.now result.from result.last
            ≡ text_of along columns.now bar.now label.now }
    {
        let from = column_at(columns, bar.from).unwrap_or(Column::of_line(bar.from));
        BarText {
            hold: &bar.hold,
            label,
            unit: along.unit(),
            from,
            last: last_before(along, columns, bar.until).unwrap_or(from),
        }
    }
}
