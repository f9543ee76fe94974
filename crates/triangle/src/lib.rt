// The triangle view: the pair list as lent, with its number of entries (document 01, The sheet).
#![tactic(auto)]

ghost use Rattle.std.specs.Prelude.{◌≡◌};
ghost use Rattle.answers.specs.Answers.{number_of};
ghost use Rattle.interface.specs.Refusals.{score_refusal};
ghost use Rattle.interface.specs.Calls.{is_pair, pair_among};

use answers::Refusal;
use pairs::{Carried, Pair};

#[derive(Clone, Copy, Debug, PartialEq, Eq)]
pub struct Triangle<'a> {
    pub pairs: &'a [i32],
    pub n: usize,
}

// The two are entries of a pair list of n.
#[tactic(auto, unfolding(interface::specs::Calls::is_pair, interface::specs::Refusals::most_entries))]
fn is_pair(pairs: &[i32], n: usize, a: usize, b: usize) -> bool
    ensures { result ≡ is_pair n pairs.now a b }
{
    n <= 32 && matrix::has_length(n, pairs) && a < n && b < n
}

// The pair of a and b; a score of 0 if they are not two entries of a pair list of n.
pub fn pair_among(pairs: &[i32], n: usize, a: usize, b: usize) -> Pair
    ensures { result ≡ pair_among n pairs.now a b }
{
    if is_pair(pairs, n, a, b) {
        matrix::pair(pairs, a, b)
    } else {
        Pair {
            carries: Carried::Scored(0),
        }
    }
}

pub fn view<'a>(pairs: &'a [i32], n: usize) -> Triangle<'a>
    ensures { (result.pairs ≡ pairs.entry) × (result.n ≡ n) }
{
    Triangle { pairs, n }
}

impl<'a> Triangle<'a> {
    // How many entries it has.
    pub fn entries(self) -> usize
        ensures { result ≡ self.entry.n }
    {
        self.n
    }

    // The pair of a and b.
    pub fn pair(self, a: usize, b: usize) -> Pair
        ensures { result ≡ pair_among self.entry.n self.entry.pairs.now a b }
    {
        pair_among(self.pairs, self.n, a, b)
    }
}

// The pair of a and b in the view of a pair list.
pub fn pair_of(pairs: &[i32], n: usize, a: usize, b: usize) -> Pair
    ensures { result ≡ pair_among n pairs.now a b }
{
    view(pairs, n).pair(a, b)
}

// Why two numbers have no score in a pair list: 6 or 10, or 15 if one is n or more.
pub fn check_score(n: usize, pairs: &[i32], a: usize, b: usize) -> Result<(), Refusal>
    ensures { number_of result ≡ score_refusal n pairs.now a b }
{
    matrix::check_length(n, pairs)?;
    if matrix::are_wrong_entries(n, a, b) {
        return Err(Refusal::OutOfPlace);
    }
    Ok(())
}
