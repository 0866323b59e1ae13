//! Definitions in `specs/` for writing down runs and their replies. This crate has no functions: `drf_cases` computes
//! the runs.
#![tactic(auto)]
