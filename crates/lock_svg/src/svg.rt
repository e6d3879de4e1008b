//! The picture as SVG.
ghost use Rattle.std.specs.Prelude.{◌≡◌, IfOk, Some, string_bytes};
ghost use Rattle.std.specs.Fmt.{WritesOnOk};
ghost use Rattle.lock_svg.specs.Shapes.{amount_label, area_of, bar_box, bar_shape, bar_shapes, grant_sign, grant_signs};
ghost use Rattle.lock_svg.specs.Shapes.{shape_in, sign_at, sign_in};
ghost use Rattle.lock_svg.specs.Pictures.{IsPicture, ground_text, job_text, lane_text, lane_top, lanes_from, name_text, names_text};
ghost use Rattle.lock_svg.specs.declared.frame.TheConstants.{TOP};
ghost use Rattle.lock_svg.specs.Words.{bar_text, class_of};

use crate::along::Along;
use crate::area::Area;
use crate::bar_text::BarText;
use crate::frame::{BAR, Frame, GAP, LANE, MARGIN, TOP};
use crate::svg_graph::GraphText;
use crate::svg_lines::write_lines;
use lock_bars::{Bar, Column, Drawing, Hold, Lane};
use std::alloc::{AllocError, Global};
use std::fmt;

/// The room that a number takes above its column.
const NUMBER: usize = 30;

/// The styles of the parts.
const STYLE: &str = "<style>
text{font:13px system-ui,-apple-system,'Segoe UI','DejaVu Sans',sans-serif;fill:#24303d}
.heading{font-weight:600;font-size:14px}
.tick{font-size:11px;fill:#66717d;text-anchor:middle}
.job{font-weight:600}
.lock{font-family:ui-monospace,'DejaVu Sans Mono',monospace;font-size:12px;text-anchor:end}
.amount{font-size:10px;fill:#fff}
.amount.asked{fill:#24303d;font-weight:600;paint-order:stroke;stroke:#fff;stroke-width:3px}
.line{fill:#fff}
.line:hover{fill:#e3e7eb}
.grid{stroke:#e3e7eb}
.row{fill:#f4f6f8;pointer-events:none}
.owns{fill:#2f6db3}
.owns.shared{fill:#2b938b}
.waits{fill:url(#hatch);stroke:#d9822b}
.grant{fill:#1d2530;stroke:#fff}
.at{stroke:#24303d;stroke-dasharray:2 3}
.wait{fill:none;stroke:#4a5663;stroke-width:1.6}
.wait.soft{stroke-dasharray:5 4;stroke-width:1.2}
.wait.circle{stroke:#c62828}
.node{fill:#fff;stroke:#4a5663;stroke-width:1.6}
.node.circle{fill:#fdecea;stroke:#c62828}
.number{font-weight:600;text-anchor:middle}
.on{font-family:ui-monospace,'DejaVu Sans Mono',monospace;font-size:11px;text-anchor:middle;stroke:#fff;stroke-width:3;paint-order:stroke}
</style>
";

/// The hatching, and the heads of the arrows.
const PARTS: &str = "<defs>
<pattern id=\"hatch\" width=\"6\" height=\"6\" patternUnits=\"userSpaceOnUse\" patternTransform=\"rotate(45)\">\
<rect width=\"6\" height=\"6\" fill=\"#fff4e5\"/><rect width=\"2.5\" height=\"6\" fill=\"#d9822b\"/></pattern>
<marker id=\"head\" markerUnits=\"userSpaceOnUse\" markerWidth=\"10\" markerHeight=\"10\" refX=\"26\" refY=\"5\" orient=\"auto\">\
<path d=\"M0 0L10 5L0 10z\" fill=\"#4a5663\"/></marker>
<marker id=\"head-circle\" markerUnits=\"userSpaceOnUse\" markerWidth=\"10\" markerHeight=\"10\" refX=\"26\" refY=\"5\" orient=\"auto\">\
<path d=\"M0 0L10 5L0 10z\" fill=\"#c62828\"/></marker>
</defs>
";

/// Writes what comes before the columns, after `<svg`.
fn write_head<W: fmt::Write>(
    f: &mut fmt::Formatter<W>,
    frame: &Frame,
    along: Along,
) -> fmt::Result {
    let (width, height) = (frame.width, frame.height);
    write!(
        f,
        " xmlns=\"http://www.w3.org/2000/svg\" width=\"{width}\" height=\"{height}\""
    )?;
    write!(
        f,
        " viewBox=\"0 0 {width} {height}\" style=\"background:#fff;color-scheme:light\">\n"
    )?;
    let whole = along.whole();
    write!(f, "<title>Locks along a {whole}</title>\n")?;
    f.write_str(STYLE)?;
    f.write_str(PARTS)?;
    write!(
        f,
        "<rect width=\"{width}\" height=\"{height}\" fill=\"#fff\"/>\n"
    )
}

/// Writes a number above the column that begins at an edge, with a thin rule below it.
fn write_number<W: fmt::Write>(
    f: &mut fmt::Formatter<W>,
    frame: &Frame,
    edge: usize,
    number: usize,
) -> fmt::Result {
    let x = edge.saturating_add(frame.column / 2);
    let y = TOP.saturating_sub(10);
    write!(
        f,
        "<text class=\"tick\" x=\"{x}\" y=\"{y}\">{number}</text>"
    )?;
    let (top, end) = (TOP.saturating_sub(4), frame.lanes_end);
    write!(f, "<path class=\"grid\" d=\"M{edge} {top}V{end}\"/>\n")
}

/// Whether the columns are whole lines, or ticks, one after another.
fn are_consecutive(columns: &[Column]) -> bool {
    let first = match columns.first() {
        Some(column) => column.line,
        None => 0,
    };
    for (i, column) in columns.iter().enumerate() {
        if column.tick != 0 || column.line != first.saturating_add(i) {
            return false;
        }
    }
    true
}

/// Writes the numbers of the lines or ticks. Where they follow one another, each, each fifth or each
/// twentieth has its number; else each for which there is room.
fn write_numbers<W: fmt::Write>(
    f: &mut fmt::Formatter<W>,
    frame: &Frame,
    columns: &[Column],
) -> fmt::Result {
    let are_consecutive = are_consecutive(columns);
    let numbered = frame.numbered();
    let mut free = 0;
    for (i, column) in columns.iter().enumerate() {
        let edge = frame.x_of(i + 1);
        let is_numbered = if are_consecutive {
            column.line % numbered == 0
        } else {
            column.tick <= 1 && free <= edge
        };
        if is_numbered {
            write_number(f, frame, edge, column.line)?;
            free = edge.saturating_add(NUMBER);
        }
    }
    Ok(())
}

/// Writes the heading and the numbers of the columns.
fn write_axis<W: fmt::Write>(
    f: &mut fmt::Formatter<W>,
    frame: &Frame,
    columns: &[Column],
    along: Along,
) -> fmt::Result {
    let (left, above) = (frame.left, TOP.saturating_sub(30));
    let (unit, whole) = (along.unit(), along.whole());
    write!(
        f,
        "<text class=\"heading\" x=\"{left}\" y=\"{above}\">Locks along the {unit}s of the {whole}</text>\n"
    )?;
    write_numbers(f, frame, columns)
}

/// The class of a bar, which gives its colour.
fn class_of(bar: &Bar) -> &'static str
    ensures { result.now ≡ class_of bar.now.hold }
{
    if !bar.hold.owns {
        "waits"
    } else if bar.hold.shared {
        "owns shared"
    } else {
        "owns"
    }
}

/// Where a bar is drawn in the lane that begins at `height`.
fn area_of(frame: &Frame, bar: &Bar, height: usize) -> Area
    ensures { result ≡ area_of frame.now bar.now height }
{
    let x = frame.x_of(bar.from);
    Area {
        x,
        y: height.saturating_add((LANE - BAR) / 2),
        width: frame.x_of(bar.until).saturating_sub(x),
        height: BAR,
    }
}

/// Writes a bar of a class, with what is said of it.
fn write_box<W: fmt::Write>(
    f: &mut fmt::Formatter<W>,
    class: &str,
    area: Area,
    text: BarText<'_>,
) -> fmt::Result
    ensures { WritesOnOk W.write_str_gives f.old result (bar_box class.now area
        (bar_text text.entry.hold.now text.entry.label.now text.entry.unit.now text.entry.from text.entry.last)) f.new }
{
    write!(
        f,
        "<rect class=\"{class}\" {area} rx=\"2\"><title>{text}</title></rect>\n"
    )
}

/// Writes how much of a pool a holding has, in the middle of its bar, where there is room.
fn write_amount<W: fmt::Write>(f: &mut fmt::Formatter<W>, hold: &Hold, area: Area) -> fmt::Result
    ensures { WritesOnOk W.write_str_gives f.old result (amount_label hold.now area) f.new }
{
    let amount = hold.amount;
    if amount == 0 || area.width < 20 {
        return Ok(());
    }
    let x = area.x.saturating_add(area.width / 2);
    let y = area.y.saturating_add(11);
    let class = if hold.owns { "amount" } else { "amount asked" };
    write!(
        f,
        "<text class=\"{class}\" x=\"{x}\" y=\"{y}\">{amount}</text>\n"
    )
}

/// Writes a bar, whose lock has this label, into the lane that begins at `height`.
fn write_bar<W: fmt::Write>(
    f: &mut fmt::Formatter<W>,
    frame: &Frame,
    along: Along,
    columns: &[Column],
    bar: &Bar,
    label: &str,
    height: usize,
) -> fmt::Result
    ensures { WritesOnOk W.write_str_gives f.old result (bar_shape frame.now along columns.now bar.now label.now height) f.new }
{
    let area = area_of(frame, bar, height);
    let text = BarText::of(along, columns, bar, label);
    write_box(f, class_of(bar), area, text)?;
    write_amount(f, &bar.hold, area)
}

/// Writes the sign of a grant at a place.
fn write_sign<W: fmt::Write>(f: &mut fmt::Formatter<W>, x: usize, y: usize) -> fmt::Result
    ensures { WritesOnOk W.write_str_gives f.old result (sign_at x y) f.new }
{
    write!(
        f,
        "<path class=\"grant\" transform=\"translate({x} {y})\" d=\"M0 -7L6 0L0 7L-6 0z\"/>\n"
    )
}

/// Writes the sign of a grant at the beginning of a column.
fn write_grant<W: fmt::Write>(
    f: &mut fmt::Formatter<W>,
    frame: &Frame,
    column: usize,
    height: usize,
) -> fmt::Result
    ensures { WritesOnOk W.write_str_gives f.old result (grant_sign frame.now column height) f.new }
{
    let x = frame.x_of(column);
    let y = height.saturating_add(LANE / 2);
    write_sign(f, x, y)
}

/// Writes a bar where it is of a lane.
fn write_bar_in<W: fmt::Write>(
    f: &mut fmt::Formatter<W>,
    frame: &Frame,
    along: Along,
    columns: &[Column],
    lane: &Lane,
    height: usize,
    bar: &Bar,
) -> fmt::Result
    ensures { WritesOnOk W.write_str_gives f.old result (shape_in frame.now along columns.now lane.now height bar.now) f.new }
{
    if lane.has(bar) {
        write_bar(f, frame, along, columns, bar, lane.label.as_str(), height)
    } else {
        Ok(())
    }
}

/// Writes the bars of a lane.
fn write_bars<W: fmt::Write>(
    f: &mut fmt::Formatter<W>,
    frame: &Frame,
    along: Along,
    columns: &[Column],
    bars: &[Bar],
    lane: &Lane,
    height: usize,
) -> fmt::Result
    ensures { WritesOnOk W.write_str_gives f.old result (bar_shapes frame.now along columns.now bars.now lane.now height) f.new }
{
    for bar in bars {
        write_bar_in(f, frame, along, columns, lane, height, bar)?;
    }
    Ok(())
}

/// Writes the sign of a bar where it is of a lane and begins with a grant.
fn write_grant_in<W: fmt::Write>(
    f: &mut fmt::Formatter<W>,
    frame: &Frame,
    bars: &[Bar],
    lane: &Lane,
    height: usize,
    bar: &Bar,
) -> fmt::Result
    ensures { WritesOnOk W.write_str_gives f.old result (sign_in frame.now bars.now lane.now height bar.now) f.new }
{
    if lane.has(bar) && bar.is_granted(bars) {
        write_grant(f, frame, bar.from, height)
    } else {
        Ok(())
    }
}

/// Writes the signs on the bars of a lane.
fn write_grants<W: fmt::Write>(
    f: &mut fmt::Formatter<W>,
    frame: &Frame,
    bars: &[Bar],
    lane: &Lane,
    height: usize,
) -> fmt::Result
    ensures { WritesOnOk W.write_str_gives f.old result (grant_signs frame.now bars.now lane.now height) f.new }
{
    for bar in bars {
        write_grant_in(f, frame, bars, lane, height, bar)?;
    }
    Ok(())
}

/// The number of a lane's job, if the lane is the job's first.
#[derive(Clone, Copy)]
struct JobText {
    job: u8,
    is_first: bool,
    y: usize,
}

impl fmt::Display for JobText {
    ghost output = { λ t. Some (job_text t.job t.is_first t.y) };

    #[tactic(auto, unfolding(crate::specs::Pictures::job_text))]
    fn fmt<W: fmt::Write>(&self, f: &mut fmt::Formatter<W>) -> fmt::Result {
        let (job, y) = (self.job, self.y);
        if self.is_first {
            write!(
                f,
                "<text class=\"job\" x=\"{MARGIN}\" y=\"{y}\">job {job}</text>"
            )
        } else {
            Ok(())
        }
    }
}

/// The name of a lane's lock.
#[derive(Clone, Copy)]
struct NameText<'a> {
    x: usize,
    y: usize,
    label: &'a str,
}

impl fmt::Display for NameText<'_> {
    ghost output = { λ t. Some (name_text t.x t.y t.label.now) };

    fn fmt<W: fmt::Write>(&self, f: &mut fmt::Formatter<W>) -> fmt::Result {
        let (x, y, label) = (self.x, self.y, self.label);
        write!(
            f,
            "<text class=\"lock\" x=\"{x}\" y=\"{y}\">{label}</text>\n"
        )
    }
}

/// The ground of the lane that begins at `height`.
fn ground_of_lane(frame: &Frame, height: usize) -> Area
    ensures { result ≡ ground_text frame.now height }
{
    Area {
        x: frame.left,
        y: height.saturating_add(1),
        width: frame.column.saturating_mul(frame.columns),
        height: LANE - 2,
    }
}

/// Writes the ground of a lane, its job's number if it is the job's first, and the lock's name.
fn write_names<W: fmt::Write>(
    f: &mut fmt::Formatter<W>,
    frame: &Frame,
    lane: &Lane,
    is_first: bool,
    height: usize,
) -> fmt::Result
    ensures { WritesOnOk W.write_str_gives f.old result (names_text frame.now lane.now is_first height) f.new }
{
    let ground = ground_of_lane(frame, height);
    let y = height.saturating_add(15);
    let job = JobText {
        job: lane.job,
        is_first,
        y,
    };
    let name = NameText {
        x: frame.left.saturating_sub(8),
        y,
        label: lane.label.as_str(),
    };
    write!(f, "<rect class=\"row\" {ground}/>\n{job}{name}")
}

/// Writes the lane that begins at `height`: its names, its bars and the signs on them.
fn write_lane<W: fmt::Write>(
    f: &mut fmt::Formatter<W>,
    lanes: &LanesText<'_>,
    lane: &Lane,
    is_first: bool,
    height: usize,
) -> fmt::Result
    ensures { WritesOnOk W.write_str_gives f.old result
        (lane_text lanes.now.frame.now lanes.now.along lanes.now.columns.now lanes.now.bars.now lane.now is_first height) f.new }
{
    write_names(f, lanes.frame, lane, is_first, height)?;
    write_bars(
        f,
        lanes.frame,
        lanes.along,
        lanes.columns,
        lanes.bars,
        lane,
        height,
    )?;
    write_grants(f, lanes.frame, lanes.bars, lane, height)
}

/// The top of a lane after one of a job that ends at a height: there is a gap between the lanes of two jobs.
fn lane_top(height: usize, last: u8, lane: &Lane) -> usize
    ensures { result ≡ lane_top height last lane.now }
{
    if lane.job != last && last != 0 {
        height.saturating_add(GAP)
    } else {
        height
    }
}

/// All lanes of a drawing.
#[derive(Clone, Copy)]
struct LanesText<'a> {
    frame: &'a Frame,
    along: Along,
    columns: &'a [Column],
    bars: &'a [Bar],
    lanes: &'a [Lane],
}

impl fmt::Display for LanesText<'_> {
    ghost output = { λ l. Some (lanes_from l.frame.now l.along l.columns.now l.bars.now TOP 0 l.lanes.now) };

    fn fmt<W: fmt::Write>(&self, f: &mut fmt::Formatter<W>) -> fmt::Result {
        let mut height = TOP;
        let mut last = 0;
        for lane in self.lanes {
            let top = lane_top(height, last, lane);
            write_lane(f, self, lane, lane.job != last, top)?;
            last = lane.job;
            height = top.saturating_add(LANE);
        }
        Ok(())
    }
}

/// Writes a rule behind the column after which the graph shows the waits.
fn write_rule<W: fmt::Write>(
    f: &mut fmt::Formatter<W>,
    frame: &Frame,
    column: usize,
) -> fmt::Result {
    let x = frame.x_of(column.saturating_add(1));
    let (top, end) = (TOP.saturating_sub(6), frame.lanes_end.saturating_add(6));
    write!(f, "<path class=\"at\" d=\"M{x} {top}V{end}\"/>\n")
}

/// Writes the legend.
fn write_legend<W: fmt::Write>(f: &mut fmt::Formatter<W>, frame: &Frame) -> fmt::Result {
    let y = frame.height.saturating_sub(66);
    write!(f, "<g transform=\"translate({MARGIN} {y})\">\n")?;
    f.write_str(LEGEND)
}

const LEGEND: &str =
    "<rect class=\"owns\" width=\"28\" height=\"14\" rx=\"2\"/><text x=\"36\" y=\"12\">owns</text>
<rect class=\"owns shared\" x=\"90\" width=\"28\" height=\"14\" rx=\"2\"/><text x=\"126\" y=\"12\">owns, shared</text>
<rect class=\"waits\" x=\"226\" width=\"28\" height=\"14\" rx=\"2\"/><text x=\"262\" y=\"12\">waits</text>
<path class=\"grant\" transform=\"translate(329 7)\" d=\"M0 -7L6 0L0 7L-6 0z\"/><text x=\"343\" y=\"12\">is granted</text>
<path class=\"wait hard\" d=\"M0 33H28\"/><text x=\"36\" y=\"38\">waits for an owner</text>
<path class=\"wait soft\" d=\"M176 33H204\"/><text x=\"212\" y=\"38\">waits for one that asked before</text>
<path class=\"wait circle\" d=\"M434 33H462\"/><text x=\"470\" y=\"38\">waits in a circle</text>
</g>
";

/// The part before the lanes, after `<svg`.
#[derive(Clone, Copy)]
struct Head<'a> {
    frame: &'a Frame,
    along: Along,
    columns: &'a [Column],
    script: &'a [u8],
}

impl fmt::Display for Head<'_> {
    fn fmt<W: fmt::Write>(&self, f: &mut fmt::Formatter<W>) -> fmt::Result {
        write_head(f, self.frame, self.along)?;
        write_lines(f, self.frame, self.columns, self.script)?;
        write_axis(f, self.frame, self.columns, self.along)
    }
}

/// The part between the lanes and the graph of the waits.
#[derive(Clone, Copy)]
struct Middle<'a> {
    frame: &'a Frame,
    along: Along,
    drawing: &'a Drawing,
}

impl fmt::Display for Middle<'_> {
    fn fmt<W: fmt::Write>(&self, f: &mut fmt::Formatter<W>) -> fmt::Result {
        write_rule(f, self.frame, self.drawing.at_column)?;
        let (x, y) = (self.frame.graph_left, TOP.saturating_sub(30));
        let (unit, number) = (self.along.unit(), self.drawing.at);
        write!(
            f,
            "<text class=\"heading\" x=\"{x}\" y=\"{y}\">Who waits for whom after {unit} {number}</text>\n"
        )?;
        if self.drawing.graph.is_empty() {
            write!(f, "<text x=\"{x}\" y=\"{TOP}\">nobody waits</text>\n")
        } else {
            Ok(())
        }
    }
}

/// The part after that graph.
#[derive(Clone, Copy)]
struct Foot<'a>(&'a Frame);

impl fmt::Display for Foot<'_> {
    fn fmt<W: fmt::Write>(&self, f: &mut fmt::Formatter<W>) -> fmt::Result {
        write_legend(f, self.0)?;
        f.write_str("</svg>\n")
    }
}

/// A drawing as one SVG that needs no other file, on a white ground. `along` says what its columns stand for; of the script, if
/// there is one, a pointer shows the line on whose column it rests.
pub fn svg_of(
    alloc: Global,
    drawing: &Drawing,
    along: Along,
    script: &[u8],
) -> Result<String, AllocError>
    ensures { IfOk result (λ page. IsPicture drawing.now along (string_bytes page)) }
{
    let frame = Frame::of(drawing);
    let columns = drawing.columns.as_slice();
    let head = Head {
        frame: &frame,
        along,
        columns,
        script,
    };
    let head = format!(in alloc; "{head}")?;
    let middle = Middle {
        frame: &frame,
        along,
        drawing,
    };
    let middle = format!(in alloc; "{middle}")?;
    let foot = Foot(&frame);
    let foot = format!(in alloc; "{foot}")?;
    let lanes = LanesText {
        frame: &frame,
        along,
        columns,
        bars: drawing.bars.as_slice(),
        lanes: drawing.lanes.as_slice(),
    };
    let graph = GraphText {
        frame: &frame,
        graph: &drawing.graph,
        arrows: drawing.arrows.as_slice(),
    };
    let (head, middle, foot) = (head.as_str(), middle.as_str(), foot.as_str());
    format!(in alloc; "<svg{head}{lanes}{middle}{graph}{foot}")
}
