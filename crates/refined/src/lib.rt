// The refined weight of a split (document 02, 2.5).
#![tactic(auto, using(integers::proofs::Operators::operators))]

ghost use Rattle.std.specs.Prelude.{◌≡◌, ◌*◌, ◌<◌, ◌≤◌, length};
ghost use Rattle.sets.specs.Sets.{others};
ghost use Rattle.clusters.specs.PairList.{score};
ghost use Rattle.clusters.specs.Refined.{quartet, doubled_score, refined_weight};
ghost use Rattle.answers.specs.Answers.{number_of};
ghost use Rattle.interface.specs.Refusals.{wrong_side, refined_refusal};
ghost use Rattle.interface.specs.Calls.{RefinedCall};
ghost use Rattle.matrix.specs.Rows.{Cleared};
ghost use Rattle.links.specs.Table.{entry};
ghost use Rattle.refined.specs.Kept.{Weighable, DistanceTable, Below};
ghost use Rattle.refined.specs.Kept.{keep_beside, keep_across, keep_within, keep_quartets};

use answers::Refusal;
use arrayvec::ArrayVec;
use smallest::Smallest;

// Check 19: a member numbered n or more, or fewer than two entries on either side.
fn is_wrong_side(n: usize, side: u32) -> bool
    requires { (1 ≤ n) × (n ≤ 32) }
    ensures { result ≡ wrong_side n side }
{
    if sets::all_entries(n) < side {
        return true;
    }
    let members = sets::size(side);
    (members < 2) | (n < members + 2)
}

// The checks of the call.
fn check_weight(n: usize, pairs: &[i32], side: u32) -> Result<(), Refusal>
    ensures { number_of result ≡ refined_refusal n pairs.now side }
{
    matrix::check_distances(n, pairs)?;
    if is_wrong_side(n, side) {
        return Err(Refusal::WrongSide);
    }
    Ok(())
}

// The entries outside the side, rising.
fn outside_of(n: usize, side: u32) -> ArrayVec<usize, 32>
    requires { n ≤ 32 }
    ensures { result.items ≡ others n side }
{
    let mut outside = ArrayVec::new();
    for b in 0..n {
        if !sets::has(side, b) {
            outside.push(b);
        }
    }
    outside
}

// A split: the distances of n entries in a table, the side, and the entries outside it.
#[derive(Clone, Copy, Debug, PartialEq, Eq)]
struct Split<'a> {
    table: &'a [i64],
    n: usize,
    side: u32,
    outside: &'a [usize],
    ghost distances: { DistanceTable n table.now },
    ghost entries: { Below n outside.now },
}

impl<'a> Split<'a> {
    // The doubled score of the quartet of a and a2 on one side, b and b2 on the other.
    fn doubled_score(&self, a: usize, a2: usize, b: usize, b2: usize) -> i64
        requires { (a < self.now.n) × (a2 < self.now.n) × (b < self.now.n) × (b2 < self.now.n) }
        ensures { result ≡ doubled_score (entry self.now.table.now) (quartet (a, a2) (b, b2)) }
    {
        let straight = links::get(self.table, a, b) + links::get(self.table, a2, b2);
        let crossed = links::get(self.table, a, b2) + links::get(self.table, a2, b);
        let within = links::get(self.table, a, a2) + links::get(self.table, b, b2);
        straight.min(crossed) - within
    }

    // Keeps the smallest, with the doubled scores of the quartets of a and a2 on one side, b and each of those before
    // it on the other.
    fn keep_beside(&self, kept: &mut Smallest, before: &[usize], a: usize, a2: usize, b: usize)
        requires { (a < self.now.n) × (a2 < self.now.n) × (b < self.now.n) × Below self.now.n before.now }
        ensures { kept.new ≡ keep_beside (entry self.now.table.now) a a2 b before.now kept.old }
    {
        for &b2 in before {
            kept.keep(self.doubled_score(a, a2, b, b2));
        }
    }

    // The same for each entry outside the side.
    fn keep_across(&self, kept: &mut Smallest, a: usize, a2: usize)
        requires { (a < self.now.n) × (a2 < self.now.n) }
        ensures { kept.new ≡ keep_across (entry self.now.table.now) a a2 self.now.outside.now kept.old }
    {
        for (i, &b) in self.outside.iter().enumerate() {
            self.keep_beside(kept, &self.outside[..i], a, a2, b);
        }
    }

    // The same for each a2 of the side before a.
    fn keep_within(&self, kept: &mut Smallest, a: usize)
        requires { a < self.now.n }
        ensures { kept.new ≡ keep_within (entry self.now.table.now) self.now.side self.now.outside.now a kept.old }
    {
        for a2 in 0..a {
            if sets::has(self.side, a2) {
                self.keep_across(kept, a, a2);
            }
        }
    }

    // The same for each a of the side.
    fn keep_quartets(&self, kept: &mut Smallest)
        ensures { kept.new
            ≡ keep_quartets (entry self.now.table.now) self.now.n self.now.side self.now.outside.now kept.old }
    {
        for a in 0..self.n {
            if sets::has(self.side, a) {
                self.keep_within(kept, a);
            }
        }
    }
}

// The weight of a split with two entries or more on each side, with the distances in a cleared table.
fn weight_with(table: &mut [i64], n: usize, pairs: &[i32], side: u32) -> i64
    requires { Weighable n pairs.now side × (n * 32 ≤ length table.old) × Cleared table.old }
    ensures { result ≡ refined_weight n (score pairs.now) side }
{
    links::fill(pairs, n, table);
    let outside = outside_of(n, side);
    let split = Split {
        table,
        n,
        side,
        outside: outside.as_slice(),
    };
    let mut kept = Smallest::new(n - 3);
    split.keep_quartets(&mut kept);
    kept.total()
}

// The same, with a table of N distances, which is cleared whole.
fn weight_in<const N: usize>(n: usize, pairs: &[i32], side: u32) -> i64
    requires { Weighable n pairs.now side × (n * 32 ≤ N) × (N ≤ 1024) }
    ensures { result ≡ refined_weight n (score pairs.now) side }
{
    let mut table = [0i64; N];
    weight_with(&mut table, n, pairs, side)
}

// The weight of a split with two entries or more on each side.
fn weight_of(n: usize, pairs: &[i32], side: u32) -> i64
    requires { Weighable n pairs.now side }
    ensures { result ≡ refined_weight n (score pairs.now) side }
{
    if n <= 8 {
        return weight_in::<256>(n, pairs, side);
    }
    if n <= 16 {
        return weight_in::<512>(n, pairs, side);
    }
    weight_in::<1024>(n, pairs, side)
}

// The call.
pub fn refined_weight(n: usize, pairs: &[i32], side: u32) -> Result<i64, Refusal>
    ensures { RefinedCall n pairs.now side result }
{
    check_weight(n, pairs, side)?;
    Ok(weight_of(n, pairs, side))
}
