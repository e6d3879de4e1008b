//! The places of a graph's jobs in a picture.

use crate::frame::{TOP, radius_of};
use wait_graph::{Graph, NUMBERS};

/// How many parts the radius of a circle has.
const RADIUS: usize = 1000;

/// A point, in pixels.
#[derive(Clone, Copy, Debug)]
pub struct Point {
    /// How far it is to the right.
    pub x: usize,
    /// How far it is down.
    pub y: usize,
}

/// How many jobs wait or are waited for.
pub fn jobs_in(graph: &Graph) -> usize {
    let mut jobs = 0usize;
    for job in 1..NUMBERS {
        if graph.has(job) {
            jobs = jobs.saturating_add(1);
        }
    }
    jobs
}

/// The sine, in thousandths, of an angle of `part` parts, where half a turn has `half` parts and the angle
/// is less than that. This is Bhaskara's formula, which is off by less than three thousandths.
fn sine(part: usize, half: usize) -> usize {
    let square = part.saturating_mul(half.saturating_sub(part));
    let whole = half.saturating_mul(half).saturating_mul(5);
    let below = whole.saturating_sub(square.saturating_mul(4)).max(1);
    square.saturating_mul(16).saturating_mul(RADIUS) / below
}

/// How far a point of a circle is from the circle's left edge, in thousandths of the radius. The point is
/// `part` parts of the turn on from the top; half a turn has `half` parts.
fn across(part: usize, half: usize) -> usize {
    let part = part % half.saturating_mul(2).max(1);
    if part < half {
        RADIUS.saturating_add(sine(part, half))
    } else {
        RADIUS.saturating_sub(sine(part.saturating_sub(half), half))
    }
}

/// The point of the job of this index, of `jobs` jobs, in a graph that begins at `left`. They are round a circle at equal
/// distances, the first at the top.
fn point_of(index: usize, jobs: usize, left: usize) -> Point {
    let (half, turned) = (jobs.saturating_mul(2), index.saturating_mul(4));
    let right = across(turned, half);
    let down = across(turned.saturating_add(jobs.saturating_mul(3)), half);
    let radius = radius_of(jobs);
    let (edge, head) = (60usize, 24usize);
    Point {
        x: left
            .saturating_add(edge)
            .saturating_add(right.saturating_mul(radius) / RADIUS),
        y: TOP
            .saturating_add(head)
            .saturating_add(down.saturating_mul(radius) / RADIUS),
    }
}

/// The place of each job of a graph of `jobs` jobs that begins at `left`: those that wait or are waited for, by rising numbers.
pub fn points_of(graph: &Graph, jobs: usize, left: usize) -> [Point; NUMBERS] {
    let mut points = [Point { x: 0, y: 0 }; NUMBERS];
    let mut index = 0usize;
    for job in 1..NUMBERS {
        if graph.has(job) {
            points[job] = point_of(index, jobs.max(1), left);
            index = index.saturating_add(1);
        }
    }
    points
}
