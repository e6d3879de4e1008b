//! Pictures as SVG of who holds which lock, and of who waits for whom, along a script or a run.
#![tactic(auto)]

mod along;
mod area;
mod bar_text;
mod frame;
mod points;
mod run_course;
mod svg;
mod svg_graph;
mod svg_lines;

pub use along::Along;
pub use run_course::RunCourse;
pub use svg::svg_of;
