// The blocks of a linkage, and the linkage calls.
#![tactic(auto)]

ghost use Rattle.std.specs.Prelude.{◌≡◌, ◌-◌, ◌*◌, ◌<◌, ◌≤◌, ◌++◌, length, drop, get_or, set};
ghost use Rattle.clusters.specs.Linkage.{single, average, singles};
ghost use Rattle.matrix.specs.Rows.{Cleared};
ghost use Rattle.linkage.specs.Blocks.{blocks_of, merged_at, linkage_of};
ghost use Rattle.linkage.specs.Steps.{weight, Mergeable, Merged};
ghost use Rattle.interface.specs.Calls.{LinkageCall};

use answers::Refusal;
use links::{Found, Method};

// The single entries, each into its slot.
pub fn put_singles(n: usize, out: &mut [u32])
    requires { (n ≤ 32) × (n ≤ length out.old) }
    ensures { out.new ≡ singles n ++ drop n out.old }
{
    for (i, slot) in out[..n].iter_mut().enumerate() {
        *slot = sets::single(i);
    }
}

// "The blocks of a linkage number at most 32": the first `count` of the sets.
#[derive(Clone, Copy, Debug, PartialEq, Eq)]
pub struct Blocks {
    pub sets: [u32; 32],
    pub count: usize,
}

impl Blocks {
    // The single entries.
    pub fn singles(n: usize) -> Blocks
        requires { n ≤ 32 }
        ensures { (result.count ≡ n) × (blocks_of result ≡ singles n) }
    {
        let mut sets = [0u32; 32];
        put_singles(n, &mut sets);
        Blocks { sets, count: n }
    }

    // The blocks that remain: the union of the two at the first's place, the last block at the second's.
    pub fn merge(mut self, i: usize, j: usize) -> Blocks
        requires { (i < j) × (j < self.count) × (self.count ≤ 32) }
        ensures { (result.count ≡ self.count - 1) × (blocks_of result ≡ merged_at i j (blocks_of self)) }
    {
        let last = self.count - 1;
        self.sets[i] = sets::union(self.sets[i], self.sets[j]);
        self.sets[j] = self.sets[last];
        self.count = last;
        self
    }
}

#[tactic(auto, unfolding(crate::specs::Steps::weight))]
fn weight(method: Method, set: u32) -> usize
    ensures { result ≡ weight method set }
{
    match method {
        Method::Single => 1,
        Method::Average => sets::size(set),
    }
}

// The weights of the blocks that remain: the union's at the first's place, the last block's at the second's.
fn merge_weights(weights: &mut [usize; 32], union: usize, i: usize, j: usize, last: usize)
    requires { (i < 32) × (j < 32) × (last < 32) }
    ensures { weights.new ≡
        set (set weights.old i union) j (get_or (set weights.old i union) last 0) }
{
    weights[i] = union;
    weights[j] = weights[last];
}

// All merges of a tree, with the links in a cleared table: each merged block goes into the next slot.
fn merge_with(table: &mut [i64], method: Method, n: usize, pairs: &[i32], out: &mut [u32])
    requires { Mergeable n pairs.now out.old × (n * 32 ≤ length table.old) × Cleared table.old }
    ensures { Merged (linkage_of method) n pairs.now out.old out.new }
{
    let mut blocks = Blocks::singles(n);
    let mut weights = [1usize; 32];
    links::fill(pairs, n, table);
    for slot in &mut out[..n - 1] {
        let last = blocks.count - 1;
        let Found { i, j, .. } = links::greatest(blocks.count, &weights, table);
        links::join_rows(method, blocks.count, i, j, table);
        links::move_row(last, j, table);
        blocks = blocks.merge(i, j);
        let union = blocks.sets[i];
        merge_weights(&mut weights, weight(method, union), i, j, last);
        *slot = union;
    }
}

// The same, in a table of N numbers: an array is cleared whole.
fn merge_in<const N: usize>(method: Method, n: usize, pairs: &[i32], out: &mut [u32])
    requires { Mergeable n pairs.now out.old × (n * 32 ≤ N) × (N ≤ 1024) }
    ensures { Merged (linkage_of method) n pairs.now out.old out.new }
{
    let mut table = [0i64; N];
    merge_with(&mut table, method, n, pairs, out);
}

// All merges of a tree: each merged block goes into the next slot.
pub fn merge_all(method: Method, n: usize, pairs: &[i32], out: &mut [u32])
    requires { Mergeable n pairs.now out.old }
    ensures { Merged (linkage_of method) n pairs.now out.old out.new }
{
    if n <= 8 {
        merge_in::<256>(method, n, pairs, out);
        return;
    }
    if n <= 16 {
        merge_in::<512>(method, n, pairs, out);
        return;
    }
    merge_in::<1024>(method, n, pairs, out);
}

// The checks of a linkage call, in the table's order, and the merges.
fn linkage(method: Method, n: usize, pairs: &[i32], blocks: &mut [u32]) -> Result<usize, Refusal>
    ensures { LinkageCall (linkage_of method) n pairs.now
        blocks.old result blocks.new }
{
    matrix::check_scored(n, pairs)?;
    let count = n - 1;
    if blocks.len() < count {
        return Err(Refusal::OutOfPlace);
    }
    merge_all(method, n, pairs, blocks);
    Ok(count)
}

#[tactic(auto, unfolding(crate::specs::Blocks::linkage_of))]
pub fn single_linkage(n: usize, pairs: &[i32], blocks: &mut [u32]) -> Result<usize, Refusal>
    ensures { LinkageCall single n pairs.now blocks.old result blocks.new }
{
    linkage(Method::Single, n, pairs, blocks)
}

#[tactic(auto, unfolding(crate::specs::Blocks::linkage_of))]
pub fn average_linkage(n: usize, pairs: &[i32], blocks: &mut [u32]) -> Result<usize, Refusal>
    ensures { LinkageCall average n pairs.now blocks.old result blocks.new }
{
    linkage(Method::Average, n, pairs, blocks)
}
