// The anchored scores and the way back.
#![tactic(auto, using(integers::proofs::Operators::operators))]

ghost use Rattle.std.specs.Prelude.{◌≡◌, ◌&&◌, ◌||◌, ◌++◌, map, suc, ◌<◌, ◌≤◌, T, pos, length, drop};
ghost use Rattle.std.proofs.lemmas.List.Edits.{sets};
ghost use Rattle.lists.specs.Lists.{all, below};
ghost use Rattle.integers.specs.Integers.{eq_z, even};
ghost use Rattle.clusters.specs.PairList.{Similarity, row_start, score, pair_list, in_range, are_distances};
ghost use Rattle.clusters.specs.Farris.{farris, unfarris, anchored_scores, distances_back, is_anchored};
ghost use Rattle.interface.specs.Refusals.{wrong_anchor, short_slice, anchored_refusal, back_refusal};
ghost use Rattle.interface.specs.Calls.{AnchoredCall, BackCall};
ghost use Rattle.answers.specs.Answers.{number_of};
ghost use Rattle.farris.specs.Distances.{is_distance};
ghost use Rattle.farris.specs.Values.{Callable, Fitting, Gives};

use answers::Refusal;
use matrix::PairList;

// S(a,b) at the anchor x.
#[tactic(auto, using(integers::proofs::Operators::operators), unfolding(clusters::specs::Farris::farris))]
fn anchored_score(list: &PairList<'_>, x: usize, a: usize, b: usize) -> i64
    requires { (x < list.now.n) × (a < list.now.n) × (b < list.now.n) }
    ensures { result ≡ farris (score list.now.pairs.now) x a b }
{
    list.score(a, x) + list.score(b, x) - list.score(a, b)
}

// d(a,b), found back from the anchored scores.
fn distance_back(scores: &PairList<'_>, a: usize, b: usize) -> i64
    requires { (a < scores.now.n) × (b < scores.now.n) }
    ensures { result ≡ unfarris (score scores.now.pairs.now) a b }
{
    let own = scores.score(a, a) + scores.score(b, b);
    let between = scores.score(a, b);
    (own - (between + between)) / 2
}

// Row a of the list: the value of a and each entry up to a.
fn fill_row<F: Fn(usize, usize) -> i64>(value: &F, n: usize, a: usize, out: &mut [i32])
    requires room { (n ≤ 32) × (a < n) × (row_start n ≤ length out.old) }
    requires callable { Callable n (F.pre value.now) }
    requires fitting { Fitting n (F.post value.now) }
    ensures { (S : Similarity) → Gives n (F.post value.now) S
        → out.new ≡ sets out.old (row_start a) (map (S a) (below (suc a))) }
{
    let start = matrix::row_start(a);
    for b in 0..a + 1 {
        out[start + b] = integers::narrow(value(a, b));
    }
}

// The pair list of the values.
fn fill<F: Fn(usize, usize) -> i64>(value: F, n: usize, out: &mut [i32])
    requires room { (n ≤ 32) × (row_start n ≤ length out.old) }
    requires callable { Callable n (F.pre value) }
    requires fitting { Fitting n (F.post value) }
    ensures { (S : Similarity) → Gives n (F.post value) S
        → out.new ≡ pair_list n S ++ drop (row_start n) out.old }
{
    for a in 0..n {
        fill_row(&value, n, a, out);
    }
}

// The anchored scores of distances that passed their checks.
pub fn anchor(list: &PairList<'_>, x: usize, out: &mut [i32])
    requires { (x < list.now.n) × T (in_range list.now.pairs.now) × (row_start list.now.n ≤ length out.old) }
    ensures { out.new ≡
        anchored_scores list.now.n x list.now.pairs.now ++ drop (row_start list.now.n) out.old }
{
    fill(|a, b| anchored_score(list, x, a, b), list.n, out);
}

// Check 15, of every call on a list with an anchor: the anchor, and the room for the result.
#[tactic(auto, unfolding(interface::specs::Refusals::wrong_anchor, interface::specs::Refusals::short_slice))]
fn is_out_of_place(n: usize, x: usize, room: usize) -> bool
    requires { n ≤ 32 }
    ensures { result ≡ (wrong_anchor n x || short_slice room (row_start n)) }
{
    n <= x || room < matrix::pair_count(n)
}

// The checks of the anchored call.
fn check_anchored(n: usize, x: usize, pairs: &[i32], room: usize) -> Result<(), Refusal>
    ensures { number_of result ≡ anchored_refusal n x pairs.now room }
{
    matrix::check_distances(n, pairs)?;
    if is_out_of_place(n, x, room) {
        return Err(Refusal::OutOfPlace);
    }
    Ok(())
}

// The anchored call.
pub fn anchored_scores(n: usize, x: usize, pairs: &[i32], out: &mut [i32]) -> Result<usize, Refusal>
    ensures { AnchoredCall n x pairs.now out.old result out.new }
{
    check_anchored(n, x, pairs, out.len())?;
    anchor(&PairList { n, pairs }, x, out);
    Ok(matrix::pair_count(n))
}

// What 11 and 12 ask of one distance.
#[tactic(auto, using(integers::proofs::Operators::operators), unfolding(crate::specs::Distances::is_distance))]
fn is_distance(v: i64) -> bool
    ensures { result ≡ is_distance v }
{
    0 <= v && matrix::is_in_range(v)
}

// Row a, found back, is of distances.
fn is_row_back(scores: &PairList<'_>, a: usize) -> bool
    requires { a < scores.now.n }
    ensures { result ≡ all (λ b. is_distance (unfarris (score scores.now.pairs.now) a b)) (below (suc a)) }
{
    (0..a + 1).all(|b| is_distance(distance_back(scores, a, b)))
}

// What is found back passes checks 11 and 12.
fn are_distances_back(scores: &PairList<'_>) -> bool
    ensures { result ≡ (in_range (distances_back scores.now.n scores.now.pairs.now)
        && are_distances scores.now.n (distances_back scores.now.n scores.now.pairs.now)) }
{
    (0..scores.n).all(|a| is_row_back(scores, a))
}

// What anchored scores have at entry a: S(a,x) is 0, and S(a,a) is even.
fn is_anchored_entry(scores: &PairList<'_>, x: usize, a: usize) -> bool
    requires { (x < scores.now.n) × (a < scores.now.n) }
    ensures { result ≡ (eq_z (score scores.now.pairs.now a x) (pos 0) && even (score scores.now.pairs.now a a)) }
{
    scores.score(a, x) == 0 && scores.score(a, a) % 2 == 0
}

// The same at every entry.
fn are_anchored_entries(scores: &PairList<'_>, x: usize) -> bool
    requires { x < scores.now.n }
    ensures { result ≡ all (λ a. eq_z (score scores.now.pairs.now a x) (pos 0)
        && even (score scores.now.pairs.now a a)) (below scores.now.n) }
{
    (0..scores.n).all(|a| is_anchored_entry(scores, x, a))
}

// The list is the anchored scores, at x, of distances.
fn is_anchored(scores: &PairList<'_>, x: usize) -> bool
    requires { x < scores.now.n }
    ensures { result ≡ is_anchored scores.now.n x scores.now.pairs.now }
{
    are_anchored_entries(scores, x) && are_distances_back(scores)
}

// The checks of the way back.
fn check_back(n: usize, x: usize, scores: &[i32], room: usize) -> Result<(), Refusal>
    ensures { number_of result ≡ back_refusal n x scores.now room }
{
    matrix::check_length(n, scores)?;
    let list = PairList { n, pairs: scores };
    if is_out_of_place(n, x, room) || !is_anchored(&list, x) {
        return Err(Refusal::OutOfPlace);
    }
    Ok(())
}

// The way back.
pub fn distances_back(n: usize, x: usize, scores: &[i32], out: &mut [i32]) -> Result<usize, Refusal>
    ensures { BackCall n x scores.now out.old result out.new }
{
    check_back(n, x, scores, out.len())?;
    let list = PairList { n, pairs: scores };
    fill(|a, b| distance_back(&list, a, b), n, out);
    Ok(matrix::pair_count(list.n))
}
