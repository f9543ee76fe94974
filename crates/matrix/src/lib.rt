// The pair list as lent: scores looked up by two entries, or all of one entry, and checks 6, 10 to 12 and 16 (document
// 01, Where a call is turned away; document 02, 2.2).
#![tactic(auto, using(integers::proofs::Operators::operators))]

ghost use Rattle.std.specs.Prelude.{◌≡◌, ◌+◌, ◌^◌, ◌<◌, ◌≤◌, pos, length};
ghost use Rattle.std.specs.Int.Signed.{le_z};
ghost use Rattle.lists.specs.Lists.{all, below};
ghost use Rattle.integers.specs.Integers.{eq_z};
ghost use Rattle.integers.specs.Range.{Within};
ghost use Rattle.pairs.specs.Pairs.{carried, pair_of, is_scored};
ghost use Rattle.clusters.specs.PairList.{row_start, place, score, score_limit, has_length, is_in_range};
ghost use Rattle.clusters.specs.PairList.{is_allowed_pair};
ghost use Rattle.clusters.specs.PairList.{scores_in_range, has_unscored, are_distances};
ghost use Rattle.clusters.specs.Touched.{row_scored, touched_entries};
ghost use Rattle.answers.specs.Answers.{number_of};
ghost use Rattle.interface.specs.Refusals.{first_of, wrong_count, wrong_entries};
ghost use Rattle.interface.specs.Refusals.{length_checks, pair_checks, scored_checks, distance_checks};
ghost use Rattle.matrix.specs.Rows.{Scores, Row};

use answers::Refusal;
use pairs::Pair;

// A pair list as lent, of n entries.
#[derive(Clone, Copy, Debug, PartialEq, Eq)]
pub struct PairList<'a> {
    pub n: usize,
    pub pairs: &'a [i32],
    pub ghost fits: { Scores n pairs.now },
}

// Where row i of the lower triangle starts.
#[tactic(auto, unfolding(clusters::specs::PairList::row_start))]
pub fn row_start(i: usize) -> usize
    requires { i ≤ 32 }
    ensures { result ≡ row_start i }
{
    i * (i + 1) / 2
}

// How many pairs n entries have: the row that would come next starts there.
pub fn pair_count(n: usize) -> usize
    requires { n ≤ 32 }
    ensures { result ≡ row_start n }
{
    row_start(n)
}

// Where the pair of a and b stands.
pub fn place_of(a: usize, b: usize) -> usize
    requires { (a < 32) × (b < 32) }
    ensures { result ≡ place a b }
{
    if a < b {
        row_start(b) + a
    } else {
        row_start(a) + b
    }
}

// Where the pair of a and the entry after b stands, from where that of a and b does.
pub fn next_place(at: usize, a: usize, b: usize) -> usize
    requires { (at ≡ place a b) × (a < 32) × (b < 32) }
    ensures { result ≡ place a (b + 1) }
{
    if b < a { at + 1 } else { at + b + 1 }
}

// The score of a and b, in a list of any length; it has 32 bits, so that sums of a few do not wrap.
#[tactic(auto, using(integers::proofs::Operators::operators), unfolding(clusters::specs::PairList::score))]
pub fn score(pairs: &[i32], a: usize, b: usize) -> i64
    requires { (a < 32) × (b < 32) × (place a b < length pairs.now) }
    ensures value { result ≡ score pairs.now a b }
    ensures narrow { Within (2 ^ 31) result }
{
    i64::from(pairs[place_of(a, b)])
}

// The pair of a and b, as the list has it.
#[tactic(auto, using(integers::proofs::Operators::operators), unfolding(clusters::specs::PairList::score))]
pub fn pair(pairs: &[i32], a: usize, b: usize) -> Pair
    requires { (a < 32) × (b < 32) × (place a b < length pairs.now) }
    ensures { result ≡ pair_of (score pairs.now a b) }
{
    Pair::from(pairs[place_of(a, b)])
}

// Check 6.
#[tactic(auto, unfolding(interface::specs::Refusals::wrong_count, interface::specs::Refusals::most_entries))]
pub fn is_wrong_count(n: usize) -> bool
    ensures { result ≡ wrong_count n }
{
    n == 0 || 32 < n
}

// Check 10.
#[tactic(auto, unfolding(clusters::specs::PairList::has_length))]
pub fn has_length(n: usize, pairs: &[i32]) -> bool
    requires { n ≤ 32 }
    ensures { result ≡ has_length n pairs.now }
{
    pairs.len() == pair_count(n)
}

// What 11 asks of a score: from -1,000,000 to 1,000,000 points, in half points.
pub fn is_in_range(v: i64) -> bool
    ensures { result ≡ is_in_range score_limit v }
{
    (-2000000 <= v) & (v <= 2000000)
}

// A score in the range, or the mark.
#[tactic(auto, unfolding(pairs::specs::Pairs::carried, clusters::specs::PairList::is_allowed_pair))]
fn is_allowed(v: i32) -> bool
    ensures { result ≡ is_allowed_pair score_limit (carried v) }
{
    pairs::is_mark(v) | is_in_range(i64::from(v))
}

#[tactic(auto, unfolding(pairs::specs::Pairs::carried, pairs::specs::Pairs::is_scored))]
fn is_scored(v: i32) -> bool
    ensures { result ≡ is_scored (carried v) }
{
    !pairs::is_mark(v)
}

// Check 11. Without an early exit the loop becomes vector code.
pub fn scores_in_range(pairs: &[i32]) -> bool
    ensures { result ≡ scores_in_range pairs.now }
{
    pairs.iter().fold(true, |good, v| good & is_allowed(*v))
}

// Check 16, by a loop like that of check 11.
pub fn has_unscored(pairs: &[i32]) -> bool
    ensures { result ≡ has_unscored pairs.now }
{
    pairs
        .iter()
        .fold(false, |found, v| found | pairs::is_mark(*v))
}

// Checks 6 and 10: the refusal of the first whose condition holds.
pub fn check_length(n: usize, pairs: &[i32]) -> Result<(), Refusal>
    ensures { number_of result ≡ first_of (length_checks n pairs.now) }
{
    if is_wrong_count(n) {
        return Err(Refusal::WrongCount);
    }
    if !has_length(n, pairs) {
        return Err(Refusal::WrongListLength);
    }
    Ok(())
}

// Checks 6, 10 and 11, which the calls on a pair list make first.
pub fn check_pairs(n: usize, pairs: &[i32]) -> Result<(), Refusal>
    ensures { number_of result ≡ first_of (pair_checks n pairs.now) }
{
    check_length(n, pairs)?;
    if !scores_in_range(pairs) {
        return Err(Refusal::OutOfRange);
    }
    Ok(())
}

// Checks 6, 10, 11 and 16, of the calls that take no unscored pair.
pub fn check_scored(n: usize, pairs: &[i32]) -> Result<(), Refusal>
    ensures { number_of result ≡ first_of (scored_checks n pairs.now) }
{
    check_pairs(n, pairs)?;
    if has_unscored(pairs) {
        return Err(Refusal::Unscored);
    }
    Ok(())
}

// No number is below 0.
fn are_not_negative(pairs: &[i32]) -> bool
    ensures { result ≡ all (le_z (pos 0)) pairs.now }
{
    pairs.iter().all(|v| 0 <= *v)
}

impl<'a> PairList<'a> {
    // The score of a and b.
    pub fn score(&self, a: usize, b: usize) -> i64
        requires { (a < self.now.n) × (b < self.now.n) }
        ensures value { result ≡ score self.now.pairs.now a b }
        ensures narrow { Within (2 ^ 31) result }
    {
        score(self.pairs, a, b)
    }

    // Puts the scores of a into a table, one for each entry.
    pub fn put_row(&self, row: &mut [i32], a: usize)
        requires { (a < self.now.n) × (self.now.n ≤ length row.old) }
        ensures { Row self.now.n (score self.now.pairs.now a) row.new }
    {
        let mut at = place_of(a, 0);
        for y in 0..self.n {
            row[y] = self.pairs[at];
            at = next_place(at, a, y);
        }
    }

    // Every pair of a is scored.
    fn is_row_scored(&self, a: usize) -> bool
        requires { a < self.now.n }
        ensures { result ≡ row_scored self.now.n (score self.now.pairs.now) a }
    {
        let mut at = place_of(a, 0);
        for b in 0..self.n {
            if !is_scored(self.pairs[at]) {
                return false;
            }
            at = next_place(at, a, b);
        }
        true
    }

    // The entries that an unscored pair touches.
    pub fn touched_entries(&self) -> u32
        ensures { result ≡ touched_entries self.now.n (score self.now.pairs.now) }
    {
        if !has_unscored(self.pairs) {
            return 0;
        }
        let mut touched = 0u32;
        for a in 0..self.n {
            if !self.is_row_scored(a) {
                touched = sets::union(touched, sets::single(a));
            }
        }
        touched
    }

    // Every own value is 0.
    fn are_own_zero(&self) -> bool
        ensures { result ≡ all (λ a. eq_z (score self.now.pairs.now a a) (pos 0)) (below self.now.n) }
    {
        (0..self.n).all(|a| self.score(a, a) == 0)
    }

    // Check 12.
    #[tactic(auto, unfolding(clusters::specs::PairList::are_distances))]
    pub fn are_distances(&self) -> bool
        ensures { result ≡ are_distances self.now.n self.now.pairs.now }
    {
        are_not_negative(self.pairs) && self.are_own_zero()
    }
}

// Checks 6, 10, 11, 16 and 12, of the calls that take distances, judged as kind 3.
pub fn check_distances(n: usize, pairs: &[i32]) -> Result<(), Refusal>
    ensures { number_of result ≡ first_of (distance_checks n pairs.now) }
{
    check_scored(n, pairs)?;
    if !(PairList { n, pairs }).are_distances() {
        return Err(Refusal::NoDistances);
    }
    Ok(())
}

// Check 15 of two entry numbers.
#[tactic(auto, unfolding(interface::specs::Refusals::wrong_entries, interface::specs::Refusals::wrong_anchor))]
pub fn are_wrong_entries(n: usize, a: usize, b: usize) -> bool
    ensures { result ≡ wrong_entries n a b }
{
    (n <= a) | (n <= b)
}
