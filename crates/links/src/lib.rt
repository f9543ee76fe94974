// The links between the blocks of a linkage, in a table of rows of 32 numbers: made from the scores, kept up to date
// by merges, and searched for the greatest.
#![tactic(auto, using(integers::proofs::Operators::operators))]

ghost use Rattle.std.specs.Prelude.{◌≡◌, ◌+◌, ◌*◌, ◌^◌, ◌<◌, ◌≤◌, length};
ghost use Rattle.integers.specs.Range.{Within};
ghost use Rattle.clusters.specs.PairList.{row_start, score};
ghost use Rattle.links.specs.Table.{
  entry,
  stored,
  Holds,
  OwnKept,
  Small,
  Written,
  joined,
  joined_row,
  quotient_at,
  Weights,
  GreatestAt,
  FoundBefore,
};

// How the link of a union to another block is made: of the scores between the two, the greatest (single linkage) or the
// sum, which the sizes divide (average linkage).
#[derive(Clone, Copy, Debug, PartialEq, Eq)]
pub enum Method {
    Single,
    Average,
}

pub fn get(t: &[i64], a: usize, b: usize) -> i64
    requires { (a < 32) × (b < 32) × (a * 32 + b < length t.now) }
    ensures { result ≡ entry t.now a b }
{
    t[a * 32 + b]
}

// A link goes into the table both ways round.
#[tactic(auto, using(integers::proofs::Operators::operators), unfolding(crate::specs::Table::stored))]
fn put(t: &mut [i64], a: usize, b: usize, z: i64)
    requires { (a < 32) × (b < 32) × (a * 32 + b < length t.old) × (b * 32 + a < length t.old) }
    ensures { t.new ≡ stored a b z t.old }
{
    t[a * 32 + b] = z;
    t[b * 32 + a] = z;
}

// Row a of the pair list begins at `start`.
fn fill_row(pairs: &[i32], a: usize, start: usize, t: &mut [i64])
    requires { (a < 32) × (start ≡ row_start a) × (start + a < length pairs.now) × (a * 32 + 32 ≤ length t.old) }
    ensures { Written a (score pairs.now a) a t.old t.new }
{
    for b in 0..a {
        put(t, a, b, i64::from(pairs[start + b]));
    }
}

// The links of the single entries: the scores.
pub fn fill(pairs: &[i32], n: usize, t: &mut [i64])
    requires { (n ≤ 32) × (length pairs.now ≡ row_start n) × (n * 32 ≤ length t.old) }
    ensures { Holds n (score pairs.now) t.new × OwnKept t.old t.new }
{
    for a in 0..n {
        fill_row(pairs, a, matrix::row_start(a), t);
    }
}

#[tactic(auto, using(integers::proofs::Operators::operators), unfolding(crate::specs::Table::joined))]
fn join(method: Method, x: i64, y: i64) -> i64
    requires { Within (2 ^ 47) x × Within (2 ^ 47) y }
    ensures { result ≡ joined method x y }
{
    match method {
        Method::Single => x.max(y),
        Method::Average => x + y,
    }
}

// The links of the union of the blocks at i and j to all others, put at i. No test leaves out i and j: what comes to
// stand there is no link.
pub fn join_rows(method: Method, count: usize, i: usize, j: usize, t: &mut [i64])
    requires { (i < j) × (j < count) × (count ≤ 32) × Small count t.old }
    ensures { Written i (joined_row method i j t.old) count t.old t.new }
{
    for q in 0..count {
        put(t, i, q, join(method, get(t, i, q), get(t, j, q)));
    }
}

// The links of the last block to all others, put at j.
pub fn move_row(last: usize, j: usize, t: &mut [i64])
    requires { (j ≤ last) × (last < 32) × (last * 32 + 32 ≤ length t.old) }
    ensures { Written j (entry t.old last) last t.old t.new }
{
    for q in 0..last {
        put(t, j, q, get(t, last, q));
    }
}

// Two places of the table, in rising order, and the link of the blocks there: numerator and denominator.
#[derive(Clone, Copy, Debug, PartialEq, Eq)]
pub struct Found {
    pub i: usize,
    pub j: usize,
    pub num: i64,
    pub den: usize,
}

// The greatest of what was found before and the links at j and an earlier place. The weight at j is common to those:
// `scaled` is what it makes of the numerator found.
fn greatest_in_row(weights: &[usize; 32], t: &[i64], j: usize, found: Found) -> Found
    requires { (j < 32) × Small (j + 1) t.now × Weights (j + 1) weights.now
        × FoundBefore weights.now t.now (j * 32) found }
    ensures { FoundBefore weights.now t.now ((j + 1) * 32) result }
{
    let own = weights[j];
    let mut best = found;
    let mut scaled = integers::times(own, found.num);
    for i in 0..j {
        let num = get(t, j, i);
        let other = weights[i];
        let left = integers::times(best.den, num);
        let right = integers::times(other, scaled);
        if left <= right {
            continue;
        }
        let den = own * other;
        best = Found { i, j, num, den };
        scaled = integers::times(own, num);
    }
    best
}

// The places of two blocks with the greatest link.
pub fn greatest(count: usize, weights: &[usize; 32], t: &[i64]) -> Found
    requires { (2 ≤ count) × (count ≤ 32) × Small count t.now × Weights count weights.now }
    ensures { GreatestAt count (quotient_at weights.now t.now) result.i result.j }
{
    let num = get(t, 1, 0);
    let den = weights[1] * weights[0];
    let mut best = Found {
        i: 0,
        j: 1,
        num,
        den,
    };
    for j in 2..count {
        best = greatest_in_row(weights, t, j, best);
    }
    best
}
