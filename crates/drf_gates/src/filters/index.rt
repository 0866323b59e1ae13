//! Where the filters of a client, or of a client on an agent, stand among all.
ghost use Rattle.std.specs.Prelude.{◌≡◌, ◌≢◌, ◌+◌, ◌*◌, ◌%◌, ◌<◌, ◌≤◌, [], ◌∷◌, ◌++◌, List, Option, None, Some, length, min, slice_index, slice_index_or, set, replicate, vec_capacity, OnOk};
ghost use Rattle.drf_rows.specs.declared.rows.FilterRow.{FilterRow};
ghost use Rattle.drf_gates.specs.filters.Index.{client_hash, client_read, hash_bucket, pair_hash, row_hash, slot_hash, link_hash, hashes_in, befores, IsTidy, IsTidyTo, IsLedTo, IsIndexed, IsLeft, HasRoom};

use drf_hash::NameHasher;
use drf_role::{Name, Role};
use drf_rows::FilterRow;
use std::alloc::{AllocError, Global};
use std::hash::Hasher;

/// Where what is in no chain goes on.
const APART: usize = usize::MAX;

/// What a hash reads behind the last text. It is in no text.
const END: u8 = 255;

/// A hash that has read a client, after what it began with.
fn client_read(start: NameHasher, role: &Role, framework: &Name) -> NameHasher
    ensures { result ≡ client_read start role.now framework.now }
{
    let mut hasher = start;
    hasher.write(framework.text().as_bytes());
    hasher.write(role.text().as_bytes());
    hasher
}

/// The hash of a client.
#[tactic(auto, unfolding(crate::specs::filters::Index::client_hash))]
pub(crate) fn client_hash(start: NameHasher, role: &Role, framework: &Name) -> u64
    ensures { result ≡ client_hash start role.now framework.now }
{
    let mut hasher = client_read(start, role, framework);
    hasher.write_u8(END);
    hasher.finish()
}

/// The hash of a client and an agent.
#[tactic(auto, unfolding(crate::specs::filters::Index::pair_hash))]
pub(crate) fn pair_hash(start: NameHasher, role: &Role, framework: &Name, agent: &Name) -> u64
    ensures { result ≡ pair_hash start role.now framework.now agent.now }
{
    let mut hasher = client_read(start, role, framework);
    hasher.write(agent.text().as_bytes());
    hasher.write_u8(END);
    hasher.finish()
}

/// What the filters of a chain have in common.
#[derive(Clone, Copy)]
pub(crate) enum Key {
    Client,
    ClientAndAgent,
}

/// The hash by which a filter is chained.
fn row_hash(start: NameHasher, key: Key, row: &FilterRow) -> u64
    ensures { result ≡ row_hash start key row.now }
{
    match key {
        Key::Client => client_hash(start, &row.role, &row.framework),
        Key::ClientAndAgent => pair_hash(start, &row.role, &row.framework, &row.agent),
    }
}

/// The bucket of a hash among so many, by a product: a division takes 4 to 9% more of an empty cycle past many filters.
#[tactic(auto, unfolding(crate::specs::filters::Index::hash_bucket))]
fn bucket_among(number: usize, hash: u64) -> usize
    requires { 0 < number }
    ensures value { result ≡ hash_bucket number hash }
    ensures within { result < number }
{
    (u128::from(hash % 4_294_967_296) * number as u128 / 4_294_967_296) as usize
}

/// Ends each chain at once.
fn cut(heads: &mut [usize])
    ensures { heads.new ≡ replicate (length heads.old) 0 }
{
    heads.fill(0);
}

/// Where a filter stands in its chain.
#[derive(Clone, Copy)]
pub(crate) struct Link {
    /// The hash by which it is chained.
    pub(crate) mark: u64,
    /// Where the chain goes on, or `APART`.
    pub(crate) before: usize,
}

/// Chains of filters, one for each bucket, from the last to the first. A filter's place is written as the number after
/// it, and 0 ends a chain. Filters with the same key are in one bucket, and a gap is in no chain.
#[derive(Drop)]
pub(crate) struct Index {
    /// Where the chain of each bucket begins.
    pub(crate) heads: Vec<usize>,
    pub(crate) links: Vec<Link>,
    /// With what each hash begins.
    pub(crate) start: NameHasher,
}

impl Index {
    /// The index of no filters.
    pub(crate) fn new(alloc: Global, start: NameHasher) -> Index
        ensures { (key : Key) → IsIndexed key [] result }
    {
        Index {
            heads: Vec::new(alloc),
            links: Vec::new(alloc),
            start,
        }
    }

    /// Whether one more filter needs more buckets.
    pub(crate) fn is_full(&self) -> bool {
        self.heads.len() <= self.links.len()
    }

    fn bucket(&self, hash: u64) -> usize
        requires { 0 < length self.now.heads.items }
        ensures value { result ≡ hash_bucket (length self.now.heads.items) hash }
        ensures within { result < length self.now.heads.items }
    {
        bucket_among(self.heads.len(), hash)
    }

    /// Where the chain of a hash begins.
    pub(crate) fn last(&self, hash: u64) -> usize
        requires { 0 < length self.now.heads.items }
        ensures { result ≡ slice_index self.now.heads.items (hash_bucket (length self.now.heads.items) hash) }
    {
        self.heads[self.bucket(hash)]
    }

    pub(crate) fn link(&self, place: usize) -> Link
        requires { place < length self.now.links.items }
        ensures before { result.before ≡ slice_index (befores self.now) place }
        ensures hash { link_hash result ≡ slice_index_or (hashes_in self.now) place None }
    {
        self.links[place]
    }

    /// Lets the chain in which a place is go on elsewhere.
    fn set_before(&mut self, place: usize, before: usize)
        requires within { place < length self.old.links.items }
        requires chained { slice_index_or (hashes_in self.old) place None ≢ None }
        requires before { before < 18446744073709551615 }
        ensures befores { befores self.new ≡ set (befores self.old) place before }
        ensures hashes { hashes_in self.new ≡ hashes_in self.old }
        ensures heads { self.new.heads ≡ self.old.heads }
        ensures start { self.new.start ≡ self.old.start }
        ensures capacity { vec_capacity self.new.links ≡ vec_capacity self.old.links }
    {
        let mark = self.link(place).mark;
        self.links[place] = Link { mark, before };
    }

    /// Notes that a place is in no chain. A chain that leads to it is mended, or made anew, before it is read.
    pub(crate) fn part(&mut self, place: usize)
        requires { place < length self.old.links.items }
        ensures befores { befores self.new ≡ set (befores self.old) place 18446744073709551615 }
        ensures hashes { hashes_in self.new ≡ set (hashes_in self.old) place None }
        ensures heads { self.new.heads ≡ self.old.heads }
        ensures start { self.new.start ≡ self.old.start }
    {
        let mark = self.link(place).mark;
        self.links[place] = Link {
            mark,
            before: APART,
        };
    }

    /// Puts a filter behind those that are there.
    pub(crate) fn push(&mut self, key: Key, row: &FilterRow)
        requires chained { IsTidy self.old }
        requires heads { 0 < length self.old.heads.items }
        requires links { length self.old.links.items < vec_capacity self.old.links }
        ensures chained { IsTidy self.new }
        ensures hashes { hashes_in self.new ≡ hashes_in self.old ++ Some (row_hash self.old.start key row.now) ∷ [] }
        ensures heads { length self.new.heads.items ≡ length self.old.heads.items }
        ensures start { self.new.start ≡ self.old.start }
        ensures capacity { vec_capacity self.new.links ≡ vec_capacity self.old.links }
    {
        let mark = row_hash(self.start, key, row);
        let bucket = self.bucket(mark);
        let before = self.heads[bucket];
        self.links.push_reserved(Link { mark, before });
        self.heads[bucket] = self.links.len();
    }

    fn push_free_slot(&mut self)
        requires chained { IsTidy self.old }
        requires links { length self.old.links.items < vec_capacity self.old.links }
        ensures chained { IsTidy self.new }
        ensures hashes { hashes_in self.new ≡ hashes_in self.old ++ None ∷ [] }
        ensures heads { length self.new.heads.items ≡ length self.old.heads.items }
        ensures start { self.new.start ≡ self.old.start }
        ensures capacity { vec_capacity self.new.links ≡ vec_capacity self.old.links }
    {
        self.links.push_reserved(Link {
            mark: 0,
            before: APART,
        });
    }

    fn push_slot(&mut self, key: Key, slot: &Option<FilterRow>)
        requires chained { IsTidy self.old }
        requires heads { 0 < length self.old.heads.items }
        requires links { length self.old.links.items < vec_capacity self.old.links }
        ensures chained { IsTidy self.new }
        ensures hashes { hashes_in self.new ≡ hashes_in self.old ++ slot_hash self.old.start key slot.now ∷ [] }
        ensures heads { length self.new.heads.items ≡ length self.old.heads.items }
        ensures start { self.new.start ≡ self.old.start }
        ensures capacity { vec_capacity self.new.links ≡ vec_capacity self.old.links }
    {
        match slot {
            Some(row) => self.push(key, row),
            None => self.push_free_slot(),
        }
    }

    /// Makes it the index of these filters, which are left of those that it has, with buckets for at most twice as many.
    pub(crate) fn rebuild_if_less(&mut self, key: Key, rows: &[Option<FilterRow>])
        requires { IsLeft key rows.now self.old }
        ensures { IsIndexed key rows.now self.new }
    {
        if rows.len() >= self.links.len() {
            return;
        }
        self.heads.truncate(2 * rows.len() + 1);
        cut(&mut self.heads);
        self.links.clear();
        for slot in rows {
            self.push_slot(key, slot);
        }
    }

    /// Takes what is at a place out of its chain.
    pub(crate) fn unlink(&mut self, place: usize)
        requires chained { IsTidy self.old }
        requires heads { 0 < length self.old.heads.items }
        requires within { place < length self.old.links.items }
        requires hashed { slice_index_or (hashes_in self.old) place None ≢ None }
        ensures chained { IsTidy self.new }
        ensures hashes { hashes_in self.new ≡ set (hashes_in self.old) place None }
        ensures heads { length self.new.heads.items ≡ length self.old.heads.items }
        ensures start { self.new.start ≡ self.old.start }
    {
        let link = self.link(place);
        let bucket = self.bucket(link.mark);
        let mut after = self.heads[bucket];
        let mut from = 0;
        while place + 1 < after {
            from = after;
            after = self.link(from - 1).before;
        }
        self.pass(bucket, from, place);
    }

    /// Lets the chain of a bucket pass a place at which it goes on, from its beginning or after a place.
    fn pass(&mut self, bucket: usize, from: usize, place: usize)
        requires chained { IsTidy self.old }
        requires known { bucket < length self.old.heads.items }
        requires led { IsLedTo self.old bucket from (place + 1) }
        ensures chained { IsTidy self.new }
        ensures hashes { hashes_in self.new ≡ set (hashes_in self.old) place None }
        ensures heads { length self.new.heads.items ≡ length self.old.heads.items }
        ensures start { self.new.start ≡ self.old.start }
    {
        let next = self.link(place).before;
        self.part(place);
        if from == 0 {
            self.heads[bucket] = next;
            return;
        }
        self.set_before(from - 1, next);
    }

    /// Puts a place in front of the chain of its hash, if it is in a chain.
    fn chain(&mut self, place: usize)
        requires chained { IsTidyTo place self.old }
        requires heads { 0 < length self.old.heads.items }
        requires within { place < length self.old.links.items }
        ensures chained { IsTidyTo (place + 1) self.new }
        ensures hashes { hashes_in self.new ≡ hashes_in self.old }
        ensures heads { length self.new.heads.items ≡ length self.old.heads.items }
        ensures start { self.new.start ≡ self.old.start }
        ensures capacity { vec_capacity self.new.links ≡ vec_capacity self.old.links }
    {
        let link = self.link(place);
        if link.before == APART {
            return;
        }
        let bucket = self.bucket(link.mark);
        let head = self.heads[bucket];
        self.set_before(place, head);
        self.heads[bucket] = place + 1;
    }

    /// Makes the chains anew, whatever they were, with buckets for at most twice as many.
    pub(crate) fn chain_all(&mut self)
        requires { length self.old.links.items ≤ length self.old.heads.items }
        ensures chained { IsTidy self.new }
        ensures hashes { hashes_in self.new ≡ hashes_in self.old }
        ensures heads { length self.new.heads.items ≡ min (length self.old.heads.items) (2 * length self.old.links.items + 1) }
        ensures start { self.new.start ≡ self.old.start }
        ensures capacity { vec_capacity self.new.links ≡ vec_capacity self.old.links }
    {
        self.heads.truncate(2 * self.links.len() + 1);
        cut(&mut self.heads);
        for place in 0..self.links.len() {
            self.chain(place);
        }
    }

    /// Makes room for one more filter.
    pub(crate) fn make_room(&mut self) -> Result<(), AllocError>
        requires { IsTidy self.old }
        ensures indexed { (key : Key) (rows : List (Option FilterRow)) → IsIndexed key rows self.old → IsIndexed key rows self.new }
        ensures room { OnOk result (HasRoom self.new) }
    {
        self.links.reserve(1)?;
        if self.links.len() < self.heads.len() {
            return Ok(());
        }
        self.heads.resize(2 * self.links.len() + 1, 0)?;
        self.chain_all();
        Ok(())
    }
}
