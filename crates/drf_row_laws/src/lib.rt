//! Theorems about the definition, in `specs/`, on which the proofs of the code are based. This crate has no functions:
//! the functions of `drf_laws` state what follows from the definition.
#![tactic(auto)]
