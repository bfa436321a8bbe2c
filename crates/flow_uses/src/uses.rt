use cov_types::Rows;
use flow_spans::Span;

/// The spans of what a process reads, of what it writes at once, and of what it writes later.
#[derive(Debug, Drop)]
pub struct Uses {
    pub reads: Rows<Span>,
    pub sets: Rows<Span>,
    pub defers: Rows<Span>,
}
