//! `PlainSorter`, a sorter over a list of clients.
ghost use Rattle.std.specs.Prelude.{◌≡◌, ◌≤◌, ◌<◌, ◌+◌, ◌-◌, ◌^◌, [], ◌∷◌, ◌++◌, All, IfOk, OnOk, length, map, min, take, true};
ghost use Rattle.std.specs.List.{AllByRecursion, IsDistinct, IsDistinct-prop, position};
ghost use Rattle.drf_role.specs.Path.{IsClientPath, Path, begins_with, same_path};
ghost use Rattle.drf_sorter.specs.Content.{IsOrderOf, IsSound, active_paths, has_client, has_node};
ghost use Rattle.drf_sorter.specs.Keys.{keys_of, key_by};
ghost use Rattle.drf_sorter.specs.Lines.{IsLineOf, has_line};

use crate::candidate::Candidate;
use crate::client::{Client, NodeClients};
use crate::key::{Key, KeyCount, weighted_share};
use crate::lines::{NodeLines, node_line};
use crate::share::Share;
use crate::sorter::Sorter;
use crate::weights::{DEFAULT_WEIGHT, Weights};
use drf_bundle::Quantities;
use drf_hash::HashKey;
use drf_role::{ClientPath, NodePath, Role};
use drf_rows::NodeLine;
use indexmap::IndexSet;
use std::alloc::{AllocError, Global};

/// A sorter with a list of its clients, which computes each sum again when the order is asked for.
#[derive(Drop)]
pub struct PlainSorter {
    clients: Vec<Client>,
    /// Their paths, in the same order. A client is found by its path.
    paths: IndexSet<ClientPath, HashKey>,
    total: Quantities,
    weights: Weights,
    queue: Vec<ClientPath>,
    next: usize,
    made: KeyCount,
    ghost listed: { paths.keys ≡ map (λ c. c.path) clients.items },
    ghost distinct: { IsDistinct same_path (map (λ c. c.path) clients.items) } by { IsDistinct-prop same_path (map (λ c. c.path) clients.items) },
}

/// Returns copies of the clients, in their order.
fn copies_of(alloc: Global, clients: &[Client]) -> Result<Vec<Client>, AllocError>
    ensures { IfOk result (λ copies. copies.items ≡ clients.now) }
{
    let mut copies = Vec::with_capacity(alloc, clients.len())?;
    for client in clients {
        copies.push(client.copy()?)?;
    }
    Ok(copies)
}

/// Returns the set of the clients' paths, in the same order. Hashes of paths begin with `key`.
fn paths_of(
    alloc: Global,
    key: HashKey,
    clients: &[Client],
) -> Result<IndexSet<ClientPath, HashKey>, AllocError>
    requires { IsDistinct same_path (map (λ c. c.path) clients.now) }
    ensures { IfOk result (λ paths. paths.keys ≡ map (λ c. c.path) clients.now) }
{
    let mut paths = IndexSet::with_hasher(alloc, key);
    for client in clients {
        paths.insert(client.path.copy()?)?;
    }
    Ok(paths)
}

/// Returns the paths of the candidates, in their order.
fn paths(alloc: Global, candidates: Vec<Candidate>) -> Result<Vec<ClientPath>, AllocError>
    ensures { IfOk result (λ paths. paths.items ≡ map (λ c. c.path) candidates.items) }
{
    candidates
        .into_iter()
        .map(|candidate| candidate.path)
        .collect(alloc)
}

impl PlainSorter {
    ghost use Rattle.drf_sorter.specs.Plain.{keys_to_make, plain_content, plain_standing};
    ghost use Rattle.drf_sorter.specs.Candidates.{HasKeys};

    /// Returns the position of the client with this path.
    fn row_of(&self, path: &ClientPath) -> Option<usize>
        ensures { result ≡ position (λ c. same_path c.path path.now) self.now.clients.items }
    {
        self.paths.get_index_of(path)
    }

    /// Returns the key of the node of the first `i + 1` parts of a path. The key is counted.
    fn key(&self, made: &mut KeyCount, path: &ClientPath, i: usize) -> Result<Key, AllocError>
        requires sound { IsSound (plain_content self.now) }
        requires short { length path.now ≤ 10 }
        requires in_path { i < length path.now }
        ensures key { IfOk result (λ key.
            keys_of (plain_standing self.now) [] (take (i + 1) path.now)
            ≡ keys_of (plain_standing self.now) [] (take i path.now) ++ key_by key ∷ []) }
        ensures counted { OnOk result (made.new ≡ min (made.old + 1) (2 ^ 64 - 1)) }
        ensures made { made.old ≤ made.new }
    {
        let node = path.node(i + 1)?;
        let name = String::from_str(self.alloc(), path.part(i))?;
        let clients = NodeClients {
            clients: &self.clients,
            node: &node,
        };
        let weight = self.weights.of(&node);
        let count = clients.count();
        Ok(Key::new(made, &self.total, weight, &clients, count, name))
    }

    /// Returns the client with this path as a candidate, with the keys of the nodes on its path.
    fn candidate(&self, made: &mut KeyCount, path: &ClientPath) -> Result<Candidate, AllocError>
        requires sound { IsSound (plain_content self.now) }
        requires fits { made.old < 2 ^ 64 }
        ensures path { IfOk result (λ c. c.path ≡ path.now) }
        ensures keys { IfOk result (HasKeys (plain_standing self.now)) }
        ensures counted { OnOk result (made.new ≡ min (made.old + length path.now) (2 ^ 64 - 1)) }
        ensures made { made.old ≤ made.new }
    {
        let mut keys = Vec::with_capacity(self.alloc(), path.len())?;
        for i in 0..path.len() {
            keys.push(self.key(made, path, i)?)?;
        }
        Ok(Candidate {
            keys,
            path: path.copy()?,
        })
    }

    /// Returns the active clients as candidates.
    fn candidates(&self, made: &mut KeyCount) -> Result<Vec<Candidate>, AllocError>
        requires sound { IsSound (plain_content self.now) }
        requires fits { made.old < 2 ^ 64 }
        ensures paths { IfOk result (λ all. map (λ c. c.path) all.items ≡ active_paths (plain_content self.now)) }
        ensures keys { IfOk result (λ all. All (HasKeys (plain_standing self.now)) all.items) }
        ensures counted { OnOk result (made.new ≡ min (made.old + keys_to_make (plain_content self.now)) (2 ^ 64 - 1)) }
        ensures made { made.old ≤ made.new }
    {
        let mut candidates = Vec::new(self.alloc());
        for client in &self.clients {
            if client.active {
                candidates.push(self.candidate(made, &client.path)?)?;
            }
        }
        Ok(candidates)
    }

    /// Returns the line of a node that has clients.
    fn line(&self, node: NodePath) -> Result<NodeLine, AllocError>
        requires sound { IsSound (plain_content self.now) }
        requires clients { has_node (plain_content self.now) node ≡ true }
        ensures path { IfOk result (λ line. line.path ≡ node) }
        ensures line { IfOk result (IsLineOf (plain_content self.now)) }
    {
        // This call reminds the prover that a node has at least one part.
        let _ = node.len();
        let clients = NodeClients {
            clients: &self.clients,
            node: &node,
        };
        let held = clients.held(self.alloc())?;
        let count = clients.count();
        Ok(node_line(&self.total, self.weights.of(&node), node, held, count))
    }

    /// Puts the lines of all nodes on a client's path into the list.
    fn put_lines(&self, lines: &mut NodeLines, path: &ClientPath) -> Result<(), AllocError>
        requires sound { IsSound (plain_content self.now) }
        requires client { has_client (plain_content self.now) path.now ≡ true }
        requires each { AllByRecursion (IsLineOf (plain_content self.now)) lines.old }
        ensures each { OnOk result (AllByRecursion (IsLineOf (plain_content self.now)) lines.new) }
        ensures stay { OnOk result ((node : Path) → has_line lines.old node ≡ true → has_line lines.new node ≡ true) }
        ensures put { OnOk result ((node : Path) → 1 ≤ length node → begins_with path.now node ≡ true → has_line lines.new node ≡ true) }
    {
        for i in 0..path.len() {
            lines.put(self.line(path.node(i + 1)?)?)?;
        }
        Ok(())
    }
}

impl Sorter for PlainSorter {
    ghost use Rattle.drf_sorter.specs.Plain.{keys_to_make, plain_content};
    ghost use Rattle.std.specs.Prelude.{drop, false};

    ghost content = { plain_content };

    ghost queue = { λ s. drop s.next s.queue.items };

    ghost work = { λ s. record { made = s.made; marked = 0 } };

    ghost COUNTED = { false };

    const COUNTED: bool = false;

    fn open(alloc: Global, key: HashKey) -> Result<Self, AllocError> {
        Ok(PlainSorter {
            clients: Vec::new(alloc),
            paths: IndexSet::with_hasher(alloc, key),
            total: Quantities::empty(alloc),
            weights: Weights::new(alloc),
            queue: Vec::new(alloc),
            next: 0,
            made: KeyCount::new(),
        })
    }

    fn alloc(&self) -> Global {
        *self.clients.allocator()
    }

    fn add(&mut self, path: ClientPath) -> Result<(), AllocError> {
        let key = path.copy()?;
        let held = Quantities::empty(self.alloc());
        self.clients.reserve(1)?;
        self.paths.insert(key)?;
        self.clients.push_reserved(Client {
            path,
            active: true,
            held,
            count: 0,
        });
        Ok(())
    }

    fn remove(&mut self, path: &ClientPath) {
        if let Some(at) = self.row_of(path) {
            self.clients.remove(at);
            self.paths.shift_remove_index(at);
        }
    }

    #[tactic(auto, using(crate::proofs::ChangeLemmas::distinct_stays, crate::proofs::ChangeLemmas::listed_stays))]
    fn set_active(&mut self, path: &ClientPath, active: bool) {
        if let Some(at) = self.row_of(path) {
            self.clients[at].active = active;
        }
    }

    #[tactic(auto, using(crate::proofs::ChangeLemmas::distinct_stays, crate::proofs::ChangeLemmas::listed_stays))]
    fn charge(
        &mut self,
        path: &ClientPath,
        quantities: &Quantities,
        offers: u64,
    ) -> Result<(), AllocError> {
        if let Some(at) = self.row_of(path) {
            self.clients[at].charge(quantities, offers)?;
        }
        Ok(())
    }

    #[tactic(auto, using(crate::proofs::ChangeLemmas::distinct_stays, crate::proofs::ChangeLemmas::listed_stays))]
    fn undo_charge(&mut self, path: &ClientPath, quantities: &Quantities) {
        if let Some(at) = self.row_of(path) {
            self.clients[at].undo_charge(quantities);
        }
    }

    #[tactic(auto, using(crate::proofs::ChangeLemmas::distinct_stays, crate::proofs::ChangeLemmas::listed_stays))]
    fn refund(&mut self, path: &ClientPath, quantities: &Quantities) {
        if let Some(at) = self.row_of(path) {
            self.clients[at].refund(quantities);
        }
    }

    fn set_total(&mut self, total: Quantities) {
        self.total = total;
    }

    fn set_weight(&mut self, role: &Role, weight: u64) -> Result<(), AllocError> {
        self.weights.set(role, weight)
    }

    /// Does what the trait says. If it succeeds, it counts one key for each node on the path of each active client.
    fn fix_order(&mut self) -> Result<(), AllocError>
        requires { IsSound (plain_content self.old) }
        ensures order { OnOk result (IsOrderOf (plain_content self.old) (drop self.new.next self.new.queue.items)) }
        ensures right { OnOk result (AllByRecursion IsClientPath (drop self.new.next self.new.queue.items)) }
        ensures same { plain_content self.new ≡ plain_content self.old }
        ensures made { self.old.made ≤ self.new.made }
        ensures counted { OnOk result (self.new.made ≡ min (self.old.made + keys_to_make (plain_content self.old)) (2 ^ 64 - 1)) }
    {
        let mut made = self.made.copy();
        let candidates = self.candidates(&mut made);
        // If memory ran out, the keys that were computed before still count.
        self.made = made;
        let mut candidates = candidates?;
        candidates.sort_unstable();
        self.queue = paths(self.alloc(), candidates)?;
        self.next = 0;
        Ok(())
    }

    fn first(&self) -> Option<&ClientPath> {
        self.queue.get(self.next)
    }

    fn pass(&mut self) {
        if self.next < self.queue.len() {
            self.next += 1;
        }
    }

    fn keys_made(&self) -> u64 {
        self.made.made()
    }

    fn share(&self, node: &NodePath) -> Option<(Share, Share, u64)> {
        let clients = NodeClients {
            clients: &self.clients,
            node,
        };
        if !clients.has_some() {
            return None;
        }
        let share = weighted_share(&self.total, DEFAULT_WEIGHT, &clients);
        let weighted = weighted_share(&self.total, self.weights.of(node), &clients);
        Some((share, weighted, clients.count()))
    }

    fn lines(&self) -> Result<Vec<NodeLine>, AllocError> {
        let mut lines = NodeLines::new(self.alloc());
        for client in &self.clients {
            self.put_lines(&mut lines, &client.path)?;
        }
        Ok(lines.into_vec())
    }

    fn copy(&self) -> Result<PlainSorter, AllocError> {
        let alloc = self.alloc();
        Ok(PlainSorter {
            clients: copies_of(alloc, &self.clients)?,
            paths: paths_of(alloc, *self.paths.hasher(), &self.clients)?,
            total: self.total.copy()?,
            weights: self.weights.copy()?,
            queue: Vec::new(alloc),
            next: 0,
            made: self.made.copy(),
        })
    }
}
