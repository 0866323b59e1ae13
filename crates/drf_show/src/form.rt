//! The two forms of output.
/// How rows are shown.
#[derive(Clone, Copy, PartialEq, Eq)]
pub enum Form {
    /// As tables with aligned columns.
    Aligned,
    /// As JSON, with a line for each row.
    Json,
}
