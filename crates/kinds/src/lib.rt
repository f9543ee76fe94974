// Kinds: what each speaks of, and its index.
#![tactic(auto)]

ghost use Rattle.std.specs.Prelude.{◌≡◌, ◌&&◌, ◌<◌, ◌≤◌, ◌^◌, T, leb};
ghost use Rattle.sets.specs.Sets.{size};
ghost use Rattle.clusters.specs.PairList.{score};
ghost use Rattle.clusters.specs.Touched.{untouched};
ghost use Rattle.clusters.specs.Groups.{index, kind_of, proper, speaks_of};
ghost use Rattle.interface.specs.Refusals.{wrong_unscored, wrong_distances};
ghost use Rattle.kinds.specs.Kinds.{kind_for, number_for, KindRead, GroupKindRead, Accepted};

use answers::Refusal;
use matrix::PairList;

// Strong groups, clean groups, Buneman splits.
#[derive(Clone, Copy, Debug, PartialEq, Eq)]
pub enum Kind {
    Strong,
    Clean,
    Splits,
}

// The kind of a number, as the calls take it: check 1.
impl TryFrom<i32> for Kind {
    type Error = Refusal;

    ghost try_from_gives = { KindRead };

    fn try_from(number: i32) -> Result<Self, Refusal> {
        match number {
            1 => Ok(Kind::Strong),
            2 => Ok(Kind::Clean),
            3 => Ok(Kind::Splits),
            _ => Err(Refusal::WrongKind),
        }
    }
}

// The same of any number: one of no kind stands for splits.
pub fn kind_of(number: i32) -> Kind
    ensures { kind_for result ≡ kind_of number }
{
    Kind::try_from(number).unwrap_or(Kind::Splits)
}

impl Kind {
    // The kind of a number in a call that only kinds of groups are for: its check 1.
    pub fn of_groups(number: i32) -> Result<Self, Refusal>
        ensures { GroupKindRead number result }
    {
        match Kind::try_from(number)? {
            Kind::Splits => Err(Refusal::WrongKind),
            kind => Ok(kind),
        }
    }

    // Check 16.
    pub fn has_wrong_unscored(self, pairs: &[i32]) -> bool
        ensures { result ≡ wrong_unscored (number_for self) pairs.now }
    {
        self != Kind::Strong && matrix::has_unscored(pairs)
    }

    // Check 12.
    pub fn are_wrong_distances(self, list: &PairList<'_>) -> bool
        ensures { result ≡ wrong_distances (number_for self) list.now.n list.now.pairs.now }
    {
        self == Kind::Splits && !list.are_distances()
    }

    // The sets that the kind speaks of.
    pub fn speaks(self, n: usize, set: u32) -> bool
        requires { (n ≤ 32) × (set < 2 ^ n) }
        ensures { result ≡ speaks_of (kind_for self) n set }
    {
        match self {
            Kind::Strong => has_size(1, n, set),
            Kind::Clean => has_size(2, n, set),
            Kind::Splits => has_size(1, n, set) && !sets::has(set, 0),
        }
    }
}

// A pair list that passed the checks of a kind.
#[derive(Clone, Copy, Debug, PartialEq, Eq)]
pub struct AcceptedList<'a> {
    pub kind: Kind,
    pub list: PairList<'a>,
    pub ghost accepted: { Accepted (kind_for kind) list.n list.pairs.now },
}

impl<'a> AcceptedList<'a> {
    // The index of a set that the kind speaks of and no unscored pair touches.
    pub fn index(&self, set: u32) -> i64
        requires fits { set < 2 ^ self.now.list.n }
        requires spoken { T (speaks_of (kind_for self.now.kind) self.now.list.n set) }
        requires untouched { T (untouched self.now.list.n (score self.now.list.pairs.now) set) }
        ensures { result ≡
            index (kind_for self.now.kind) self.now.list.n (score self.now.list.pairs.now) set }
    {
        match self.kind {
            Kind::Strong => indices::strong_index(&self.list, set),
            Kind::Clean => indices::clean_index(&self.list, set),
            Kind::Splits => indices::separation_index(&self.list, set),
        }
    }
}

// The set has that many members or more, and is not all entries.
fn has_size(least: usize, n: usize, set: u32) -> bool
    requires { (n ≤ 32) × (set < 2 ^ n) }
    ensures { result ≡ (leb least (size n set) && proper n set) }
{
    let size = sets::size(set);
    least <= size && size < n
}
