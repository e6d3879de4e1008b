//! What a picture shows.

use crate::arrows::Arrow;
use crate::bars::Bar;
use crate::columns::Column;
use crate::lanes::Lane;
use wait_graph::Graph;

/// What a picture shows: the bars along a script, and who waits for whom after one of its lines.
#[derive(Drop)]
pub struct Drawing {
    /// What each column stands for.
    pub columns: Vec<Column>,
    /// The bars, over columns that are counted from 1.
    pub bars: Vec<Bar>,
    /// A row for each job and each lock that it asked for.
    pub lanes: Vec<Lane>,
    /// The line after which `graph` says who waits for whom.
    pub at: usize,
    /// How many columns there are up to then.
    pub at_column: usize,
    /// Who waits for whom then.
    pub graph: Graph,
    /// Each wait of `graph` with its lock, by rising numbers of the jobs that wait.
    pub arrows: Vec<Arrow>,
}
