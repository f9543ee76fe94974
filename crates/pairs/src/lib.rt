// A pair of entries, as a pair list and a sheet have it (document 02, 2.2).
#![tactic(auto)]

ghost use Rattle.std.specs.Prelude.{◌≡◌};
ghost use Rattle.integers.specs.Integers.{eq_z};
ghost use Rattle.pairs.specs.Pairs.{mark, list_number, pair_of};

// A score, or the mark unscored.
#[derive(Clone, Copy, Debug, PartialEq, Eq)]
pub enum Carried {
    Scored(i32),
    Unscored,
}

#[derive(Clone, Copy, Debug, PartialEq, Eq)]
pub struct Pair {
    pub carries: Carried,
}

// An unscored pair in the pair list.
const MARK: i32 = i32::MIN;

// The number is the mark.
#[tactic(auto, using(integers::proofs::Operators::operators), unfolding(crate::specs::Pairs::mark))]
pub fn is_mark(x: i32) -> bool
    ensures { result ≡ eq_z x mark }
{
    x == MARK
}

// The pair of a number of the pair list.
impl From<i32> for Pair {
    ghost from_gives = { λ x pair. pair ≡ pair_of x };

    #[tactic(auto, unfolding(crate::specs::Pairs::pair_of, crate::specs::Pairs::carried))]
    fn from(x: i32) -> Pair {
        let carries = if is_mark(x) {
            Carried::Unscored
        } else {
            Carried::Scored(x)
        };
        Pair { carries }
    }
}

// The number of a pair in the pair list.
impl From<Pair> for i32 {
    ghost from_gives = { λ pair x. x ≡ list_number pair };

    #[tactic(auto, unfolding(crate::specs::Pairs::list_number, crate::specs::Pairs::number_for))]
    fn from(pair: Pair) -> i32 {
        match pair.carries {
            Carried::Scored(score) => score,
            Carried::Unscored => MARK,
        }
    }
}
