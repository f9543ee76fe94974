// The smallest group that two entries share (document 02, 2.1).
#![tactic(auto)]

ghost use Rattle.std.specs.Prelude.{◌≡◌, ◌<◌, ◌≤◌, IfOk};
ghost use Rattle.clusters.specs.Groups.{sets_of};
ghost use Rattle.clusters.specs.Nesting.{holds_both, smallest_shared};
ghost use Rattle.answers.specs.Answers.{number_of};
ghost use Rattle.kinds.specs.Kinds.{number_for};
ghost use Rattle.interface.specs.Refusals.{shared_refusal};
ghost use Rattle.interface.specs.Calls.{SharedCall};

use answers::Refusal;
use clusters::{Group, Hit};
use kinds::{AcceptedList, Kind};
use matrix::PairList;

// The checks of the call, and the list that passed them. Line 12 is of kind 3, which line 1 refuses.
fn check_shared<'a>(
    kind: i32,
    n: usize,
    pairs: &'a [i32],
    a: usize,
    b: usize,
) -> Result<AcceptedList<'a>, Refusal>
    ensures refusal { number_of result ≡ shared_refusal kind n pairs.now a b }
    ensures same { IfOk result (λ s. (number_for s.kind ≡ kind)
        × (s.list.n ≡ n) × (s.list.pairs.now ≡ pairs.now)) }
{
    let kind = Kind::of_groups(kind)?;
    matrix::check_pairs(n, pairs)?;
    if kind.has_wrong_unscored(pairs) {
        return Err(Refusal::Unscored);
    }
    if matrix::are_wrong_entries(n, a, b) {
        return Err(Refusal::OutOfPlace);
    }
    let list = PairList { n, pairs };
    Ok(AcceptedList { kind, list })
}

fn holds_both(set: u32, a: usize, b: usize) -> bool
    requires { (a < 32) × (b < 32) }
    ensures { result ≡ holds_both a b set }
{
    sets::has(set, a) && sets::has(set, b)
}

// Goes down the groups and stops at the first whose set holds both.
fn first_shared(groups: &[Group], n: usize, a: usize, b: usize) -> Hit
    requires { (1 ≤ n) × (n ≤ 32) × (a < n) × (b < n) }
    ensures { result ≡ smallest_shared n a b (sets_of groups.now) }
{
    for (i, group) in groups.iter().enumerate() {
        let set = group.set;
        if holds_both(set, a, b) {
            let line = i + 1;
            return Hit { set, line };
        }
    }
    Hit {
        set: sets::all_entries(n),
        line: 0,
    }
}

// The call.
pub fn smallest_shared(
    kind: i32,
    n: usize,
    pairs: &[i32],
    a: usize,
    b: usize,
) -> Result<Hit, Refusal>
    ensures { SharedCall kind n pairs.now a b result }
{
    let accepted = check_shared(kind, n, pairs, a, b)?;
    let found = groups::of_kind(&accepted);
    Ok(first_shared(found.as_slice(), n, a, b))
}
