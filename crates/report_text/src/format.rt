//! The formats of a report.

/// How a report is written.
#[derive(Clone, Copy, PartialEq, Eq)]
pub enum Format {
    /// Lines for people: one for each plan, and one for each planner.
    Lines,
    /// A table with tabs between its columns: their names, and one row for each plan.
    Table,
    /// JSON records, one on each line: one for the run, one for each plan, and one for each planner.
    Json,
}
