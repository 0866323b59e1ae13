//! `Candidate`, an active client with the keys by which `PlainSorter` orders it.
use crate::key::Key;
use drf_role::ClientPath;

/// An active client, with the keys of the nodes on its path from the top of the tree down. Candidates are compared by their keys.
#[derive(Drop)]
#[derive_where(PartialEq, Eq, PartialOrd, Ord)]
pub struct Candidate {
    pub keys: Vec<Key>,
    #[derive_where(skip(EqHashOrd))]
    pub path: ClientPath,
}
