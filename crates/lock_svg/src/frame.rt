//! The measures of a picture, in pixels.

ghost use Rattle.std.specs.Prelude.{◌≡◌, ◌<◌};
ghost use Rattle.lock_svg.specs.Graphs.{point_in};
ghost use Rattle.lock_svg.specs.Shapes.{x_of};

use crate::points::{Point, jobs_in, points_of};
use lock_bars::{Drawing, Lane};
use wait_graph::NUMBERS;

/// The height of a lane.
pub const LANE: usize = 22;

/// The height of a bar.
pub const BAR: usize = 14;

/// The height of the room above the lanes.
pub const TOP: usize = 70;

/// Where the grounds of the columns begin, above the numbers.
pub const LINE_TOP: usize = TOP - 24;

/// The gap between the lanes of two jobs.
pub const GAP: usize = 8;

/// The margin at the left, at the right, and beside the graph.
pub const MARGIN: usize = 24;

/// The width of the room for `job 63`.
pub const JOB: usize = 56;

/// The height of the room below the lanes, for the legend.
const BOTTOM: usize = 96;

/// The width of a character of a lock's name.
const CHARACTER: usize = 8;

/// The width of a column where there are few.
const WIDE: usize = 24;

/// The most width of all columns together.
const MOST_WIDTH: usize = 960;

/// The least width of a column.
const NARROW: usize = 3;

/// The least width beside the names, for the heading.
const LEAST_WIDTH: usize = 270;

/// The least width of the whole, for the legend.
const LEAST_WHOLE: usize = 610;

/// The measures of one picture, in pixels.
#[derive(Drop)]
pub struct Frame {
    /// Where the first column begins.
    pub left: usize,
    /// The width of a column.
    pub column: usize,
    /// How many columns there are.
    pub columns: usize,
    /// Where the lanes end.
    pub lanes_end: usize,
    /// Where the graph begins.
    pub graph_left: usize,
    /// The place of each job in the graph.
    pub points: [Point; NUMBERS],
    /// The width of the graph.
    pub graph_width: usize,
    /// The width of the whole.
    pub width: usize,
    /// The height of the whole.
    pub height: usize,
}

/// The width of a column, for so many columns.
fn column_of(columns: usize) -> usize {
    (MOST_WIDTH / columns.max(1)).min(WIDE).max(NARROW)
}

/// The height of the lanes.
fn lanes_height(lanes: &[Lane]) -> usize {
    let mut height = 0usize;
    let mut last = 0;
    for lane in lanes {
        if lane.job != last && last != 0 {
            height = height.saturating_add(GAP);
        }
        last = lane.job;
        height = height.saturating_add(LANE);
    }
    height.max(LANE)
}

/// The width of the longest name of a lock.
fn names_width(lanes: &[Lane]) -> usize {
    let mut longest = 0;
    for lane in lanes {
        longest = longest.max(lane.label.len());
    }
    longest.saturating_mul(CHARACTER).saturating_add(16)
}

impl Frame {
    /// The measures of a drawing.
    pub fn of(drawing: &Drawing) -> Self {
        let jobs = jobs_in(&drawing.graph);
        let lanes = drawing.lanes.as_slice();
        let left = MARGIN
            .saturating_add(JOB)
            .saturating_add(names_width(lanes));
        let columns = drawing.columns.len();
        let column = column_of(columns);
        let right = column.saturating_mul(columns).max(LEAST_WIDTH);
        let graph_left = left.saturating_add(right).saturating_add(MARGIN);
        let graph_width = graph_width(jobs);
        let lanes_end = TOP.saturating_add(lanes_height(lanes));
        let tallest = lanes_end.max(TOP.saturating_add(graph_height(jobs)));
        Frame {
            left,
            column,
            columns,
            lanes_end,
            graph_left,
            points: points_of(&drawing.graph, jobs, graph_left),
            graph_width,
            width: graph_left
                .saturating_add(graph_width)
                .saturating_add(MARGIN)
                .max(LEAST_WHOLE),
            height: tallest.saturating_add(BOTTOM),
        }
    }

    /// The place of a job in the graph.
    pub fn point(&self, job: usize) -> Point
        ensures { result ≡ point_in self.now job }
    {
        let points = self.points.as_slice();
        points.get(job).copied().unwrap_or(Point { x: 0, y: 0 })
    }

    /// Where a column begins; columns are counted from 1.
    pub fn x_of(&self, column: usize) -> usize
        ensures { result ≡ x_of self.now column }
    {
        let before = column.saturating_sub(1).saturating_mul(self.column);
        self.left.saturating_add(before)
    }

    /// One line in how many has its number above it.
    pub fn numbered(&self) -> usize
        ensures { 0 < result }
    {
        if self.column >= WIDE {
            1
        } else if self.column >= 8 {
            5
        } else {
            20
        }
    }
}

/// The distance of the jobs of a graph from its middle.
pub fn radius_of(jobs: usize) -> usize {
    let few = jobs.min(5).saturating_mul(8).saturating_add(30);
    jobs.saturating_mul(12).max(few)
}

/// The width of a graph with so many jobs and the room round them.
fn graph_width(jobs: usize) -> usize {
    radius_of(jobs)
        .saturating_mul(2)
        .saturating_add(120)
        .max(260)
}

/// The height of such a graph.
fn graph_height(jobs: usize) -> usize {
    if jobs == 0 {
        return 0;
    }
    radius_of(jobs).saturating_mul(2).saturating_add(40)
}
