//! What was seen along a script.
ghost use Rattle.std.specs.Prelude.{◌≡◌, ◌≢◌, ◌+◌, ◌++◌, ◌∷◌, [], Some, None, length, map, IsSome, IfSome, OnOk};
ghost use Rattle.std.specs.List.{All};
ghost use Rattle.lock_bars.specs.Arrows.{HasLock, wait_of, waits_in};
ghost use Rattle.lock_bars.specs.Bars.{bars_after};
ghost use Rattle.wait_graph.specs.Graphs.{Shows};

use crate::arrows::{Arrow, waits_behind};
use crate::bars::{Bar, record_line};
use crate::columns::Column;
use lock_queue::LockTable;
use std::alloc::{AllocError, Global};
use wait_graph::Graph;

/// What was seen along a script so far.
#[derive(Drop)]
pub struct Course {
    /// How many lines were done.
    pub lines: usize,
    /// The columns of the picture, each for the table that a line or a tick has left.
    pub columns: Vec<Column>,
    /// The bars, over columns that are counted from 1.
    pub bars: Vec<Bar>,
    /// Who waits for whom after the line that was asked for, and how many columns there were then.
    pub waits: Option<(Graph, usize)>,
    /// The waits of that graph, each with its lock.
    pub arrows: Vec<Arrow>,
}

impl Course {
    /// Nothing seen yet.
    pub fn new(alloc: Global) -> Self
        ensures lines { result.lines ≡ 0 }
        ensures columns { result.columns.items ≡ [] }
        ensures bars { result.bars.items ≡ [] }
        ensures waits { result.waits ≡ None }
    {
        Course {
            lines: 0,
            columns: Vec::new(alloc),
            bars: Vec::new(alloc),
            waits: None,
            arrows: Vec::new(alloc),
        }
    }

    /// Adds a column for the table that a line or a tick has left, and extends the bars over it.
    pub fn look<L: LockTable>(
        &mut self,
        alloc: Global,
        column: Column,
        table: &L,
    ) -> Result<(), AllocError>
        ensures lines { self.new.lines ≡ self.old.lines }
        ensures columns { OnOk result (self.new.columns.items ≡ self.old.columns.items ++ column ∷ []) }
        ensures bars { OnOk result (self.new.bars.items
            ≡ bars_after (length self.old.columns.items + 1) self.old.bars.items (L.requests table.now)) }
        ensures waits { self.new.waits ≡ self.old.waits }
        ensures arrows { self.new.arrows ≡ self.old.arrows }
    {
        self.columns.push(column)?;
        let columns = self.columns.as_slice().len();
        record_line(alloc, &mut self.bars, columns, table)
    }

    /// Ends the line of this number, and keeps who waits for whom where `at` asks for it after this line.
    pub fn end_line<L: LockTable>(
        &mut self,
        alloc: Global,
        number: usize,
        at: Option<usize>,
        table: &L,
    ) -> Result<(), AllocError>
        ensures lines { self.new.lines ≡ number }
        ensures columns { self.new.columns ≡ self.old.columns }
        ensures bars { self.new.bars ≡ self.old.bars }
        ensures kept { at ≢ Some number → self.new.waits ≡ self.old.waits }
        ensures left { at ≢ Some number → self.new.arrows ≡ self.old.arrows }
        ensures found { OnOk result (at ≡ Some number → IsSome self.new.waits) }
        ensures waits { OnOk result (at ≡ Some number → IfSome self.new.waits (λ w.
            Shows (L.requests table.now) w.0 × (w.1 ≡ length self.old.columns.items))) }
        ensures arrows { OnOk result (at ≡ Some number → IfSome self.new.waits (λ w.
            map wait_of self.new.arrows.items ≡ waits_in w.0)) }
        ensures locks { OnOk result (at ≡ Some number → All (HasLock (L.requests table.now)) self.new.arrows.items) }
    {
        self.lines = number;
        if at == Some(number) {
            let (graph, arrows) = waits_behind(alloc, table)?;
            self.arrows = arrows;
            self.waits = Some((graph, self.columns.len()));
        }
        Ok(())
    }
}
