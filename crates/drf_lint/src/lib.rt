//! Diagnoses of lines that are not events, for the people who write them, and events in their normal form, for those who check them.
#![tactic(auto)]

mod diagnosis;
mod json_hint;
mod linter;
mod place;
mod reported;
mod shape_hint;
mod shapes;
mod stream;
mod text_hint;
mod words;

pub use diagnosis::{Diagnosis, NoEvent, diagnose};
pub use stream::run_lint;
