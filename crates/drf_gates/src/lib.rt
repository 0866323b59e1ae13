//! The tables that decide whether a free resource can be offered to a client: filters, quota limits, and what roles consume.
#![tactic(auto)]

mod filters;
mod laws;
mod quota;

pub use filters::FilterTable;
pub use laws::filters_law;
pub use quota::Quota;
pub use quota::consumption::Consumption;
pub use quota::limits::QuotaLimits;
