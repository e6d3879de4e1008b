//! The graph of waits in a picture.
ghost use Rattle.std.specs.Prelude.{◌≡◌, ◌<◌, Some};
ghost use Rattle.std.specs.Fmt.{WritesOnOk};
ghost use Rattle.std.specs.List.{flat_map};
ghost use Rattle.lock_svg.specs.Graphs.{arrow_of, arrows_text, bend_of, bent, curve_text, graph_text, head_of, kind_text, label_text_on};
ghost use Rattle.lock_svg.specs.Graphs.{middle_of, name_at, node_at, node_class, node_text, nodes_text, wait_text, words_on};
ghost use Rattle.lock_svg.specs.Words.{arrow_class};

use crate::frame::Frame;
use crate::points::Point;
use lock_bars::{Arrow, LockLabel};
use lock_queue::Key;
use std::fmt;
use wait_graph::{Graph, NUMBERS, Wait};

/// The middle of two coordinates, moved by a sixth of the distance between two others.
fn bent(a: usize, b: usize, from: usize, to: usize) -> usize
    ensures { result ≡ bent a b from to }
{
    let middle = a.saturating_add(b) / 2;
    middle.saturating_add(to / 6).saturating_sub(from / 6)
}

/// The point to which an arrow is bent.
fn bend_of(from: Point, to: Point) -> Point
    ensures { result ≡ bend_of from to }
{
    Point {
        x: bent(from.x, to.x, from.y, to.y),
        y: bent(from.y, to.y, to.x, from.x),
    }
}

/// The middle of a bent arrow, between its ends and the point to which it is bent.
fn middle_of(from: usize, bent_to: usize, to: usize) -> usize
    ensures { result ≡ middle_of from bent_to to }
{
    let ends = from.saturating_add(to);
    ends.saturating_add(bent_to.saturating_mul(2)) / 4
}

/// The class of an arrow, which gives its line and its colour.
fn arrow_class(wait: Wait) -> &'static str
    ensures { result.now ≡ arrow_class wait }
{
    match (wait.is_hard, wait.is_in_circle) {
        (true, true) => "wait hard circle",
        (true, false) => "wait hard",
        (false, true) => "wait soft circle",
        (false, false) => "wait soft",
    }
}

/// The head of an arrow.
fn head_of(wait: Wait) -> &'static str
    ensures { result.now ≡ head_of wait }
{
    if wait.is_in_circle {
        "head-circle"
    } else {
        "head"
    }
}

/// For whom a wait is, and whether it is in a circle.
fn kind_text(wait: Wait) -> &'static str
    ensures { result.now ≡ kind_text wait }
{
    match (wait.is_hard, wait.is_in_circle) {
        (true, true) => ", hard, in a circle",
        (true, false) => ", hard",
        (false, true) => ", soft, in a circle",
        (false, false) => ", soft",
    }
}

/// What is said of a wait.
#[derive(Clone, Copy)]
struct WaitText(Wait);

impl fmt::Display for WaitText {
    ghost output = { λ w. Some (wait_text w.0) };

    fn fmt<W: fmt::Write>(&self, f: &mut fmt::Formatter<W>) -> fmt::Result {
        let (job, other, kind) = (self.0.job, self.0.other, kind_text(self.0));
        write!(f, "job {job} waits for job {other}{kind}")
    }
}

/// For which lock a wait is, if that is known.
#[derive(Clone, Copy)]
struct WordsOn<'a>(&'a Option<Key>);

impl fmt::Display for WordsOn<'_> {
    ghost output = { λ w. Some (words_on w.0.now) };

    fn fmt<W: fmt::Write>(&self, f: &mut fmt::Formatter<W>) -> fmt::Result {
        let Some(key) = self.0 else {
            return Ok(());
        };
        let label = LockLabel(key);
        write!(f, ", for {label}")
    }
}

/// The name of a lock in the middle of an arrow.
#[derive(Clone, Copy)]
struct LabelOn<'a> {
    at: Point,
    lock: &'a Option<Key>,
}

impl fmt::Display for LabelOn<'_> {
    ghost output = { λ l. Some (label_text_on l.at l.lock.now) };

    fn fmt<W: fmt::Write>(&self, f: &mut fmt::Formatter<W>) -> fmt::Result {
        let Some(key) = self.lock else {
            return Ok(());
        };
        let (x, y, label) = (self.at.x, self.at.y, LockLabel(key));
        write!(f, "<text class=\"on\" x=\"{x}\" y=\"{y}\">{label}</text>\n")
    }
}

/// The place of the name of an arrow's lock.
fn name_at(from: Point, bend: Point, to: Point) -> Point
    ensures { result ≡ name_at from bend to }
{
    Point {
        x: middle_of(from.x, bend.x, to.x),
        y: middle_of(from.y, bend.y, to.y).saturating_add(4),
    }
}

/// The line of an arrow.
#[derive(Clone, Copy)]
struct Curve {
    from: Point,
    bend: Point,
    to: Point,
}

impl fmt::Display for Curve {
    ghost output = { λ c. Some (curve_text c.from c.bend c.to) };

    fn fmt<W: fmt::Write>(&self, f: &mut fmt::Formatter<W>) -> fmt::Result {
        let (x1, y1, x, y) = (self.from.x, self.from.y, self.bend.x, self.bend.y);
        let (x2, y2) = (self.to.x, self.to.y);
        write!(f, "M{x1} {y1}Q{x} {y} {x2} {y2}")
    }
}

/// The arrow of a wait. It is bent to one side, so that two waits in opposite directions are apart. The name of the lock
/// is on it.
#[derive(Clone, Copy)]
struct ArrowText<'a> {
    class: &'a str,
    head: &'a str,
    arrow: &'a Arrow,
    curve: Curve,
    at: Point,
}

impl fmt::Display for ArrowText<'_> {
    ghost output = { λ a. Some (arrow_of a.class.now a.head.now a.arrow.now a.curve.from a.curve.bend a.curve.to a.at) };

    fn fmt<W: fmt::Write>(&self, f: &mut fmt::Formatter<W>) -> fmt::Result {
        let (class, head, curve) = (self.class, self.head, self.curve);
        let (wait, lock) = (WaitText(self.arrow.wait), WordsOn(&self.arrow.lock));
        let label = LabelOn {
            at: self.at,
            lock: &self.arrow.lock,
        };
        write!(
            f,
            "<path class=\"{class}\" d=\"{curve}\" marker-end=\"url(#{head})\"><title>{wait}{lock}</title></path>\n{label}"
        )
    }
}

/// Writes an arrow.
fn write_arrow<W: fmt::Write>(
    f: &mut fmt::Formatter<W>,
    frame: &Frame,
    arrow: &Arrow,
) -> fmt::Result
    ensures { WritesOnOk W.write_str_gives f.old result (arrows_text frame.now arrow.now) f.new }
{
    let (from, to) = (frame.point(arrow.wait.job), frame.point(arrow.wait.other));
    let bend = bend_of(from, to);
    let at = name_at(from, bend, to);
    let text = ArrowText {
        class: arrow_class(arrow.wait),
        head: head_of(arrow.wait),
        arrow,
        curve: Curve { from, bend, to },
        at,
    };
    write!(f, "{text}")
}

/// The class of a job, which gives its colour.
fn node_class(graph: &Graph, job: usize) -> &'static str
    requires { job < NUMBERS }
    ensures { result.now ≡ node_class graph.now job }
{
    if graph.is_in_circle(job) {
        "node circle"
    } else {
        "node"
    }
}

/// A job at a point.
#[derive(Clone, Copy)]
struct NodeText<'a> {
    class: &'a str,
    at: Point,
    /// The foot of its number.
    foot: usize,
    job: usize,
}

impl fmt::Display for NodeText<'_> {
    ghost output = { λ n. Some (node_at n.class.now n.at n.foot n.job) };

    fn fmt<W: fmt::Write>(&self, f: &mut fmt::Formatter<W>) -> fmt::Result {
        let (class, x, y, foot, job) = (self.class, self.at.x, self.at.y, self.foot, self.job);
        write!(
            f,
            "<circle class=\"{class}\" cx=\"{x}\" cy=\"{y}\" r=\"15\"/><text class=\"number\" x=\"{x}\" y=\"{foot}\">{job}</text>\n"
        )
    }
}

/// Writes a job if it waits or is waited for.
fn write_node<W: fmt::Write>(
    f: &mut fmt::Formatter<W>,
    graph: &Graph,
    frame: &Frame,
    job: usize,
) -> fmt::Result
    requires { job < NUMBERS }
    ensures { WritesOnOk W.write_str_gives f.old result (node_text frame.now graph.now job) f.new }
{
    if !graph.has(job) {
        return Ok(());
    }
    let at = frame.point(job);
    let node = NodeText {
        class: node_class(graph, job),
        at,
        foot: at.y.saturating_add(5),
        job,
    };
    write!(f, "{node}")
}

/// Writes the jobs that wait or are waited for.
fn write_nodes<W: fmt::Write>(
    f: &mut fmt::Formatter<W>,
    graph: &Graph,
    frame: &Frame,
) -> fmt::Result
    ensures { WritesOnOk W.write_str_gives f.old result (nodes_text frame.now graph.now) f.new }
{
    for job in 1..NUMBERS {
        write_node(f, graph, frame, job)?;
    }
    Ok(())
}

/// Writes the arrows of the waits.
fn write_arrows<W: fmt::Write>(
    f: &mut fmt::Formatter<W>,
    frame: &Frame,
    arrows: &[Arrow],
) -> fmt::Result
    ensures { WritesOnOk W.write_str_gives f.old result (flat_map (arrows_text frame.now) arrows.now) f.new }
{
    for arrow in arrows {
        write_arrow(f, frame, arrow)?;
    }
    Ok(())
}

/// The graph of waits: an arrow for each, and the jobs that wait or are waited for.
#[derive(Clone, Copy)]
pub struct GraphText<'a> {
    pub frame: &'a Frame,
    pub graph: &'a Graph,
    pub arrows: &'a [Arrow],
}

impl fmt::Display for GraphText<'_> {
    ghost output = { λ g. Some (graph_text g.frame.now g.graph.now g.arrows.now) };

    #[tactic(auto, unfolding(crate::specs::Graphs::graph_text))]
    fn fmt<W: fmt::Write>(&self, f: &mut fmt::Formatter<W>) -> fmt::Result {
        write_arrows(f, self.frame, self.arrows)?;
        write_nodes(f, self.graph, self.frame)
    }
}
