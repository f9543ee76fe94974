// The pool of two sheets (document 02, 2.4).
#![tactic(auto, using(integers::proofs::Operators::operators))]

ghost use Rattle.std.specs.Prelude.{◌≡◌, ◌++◌, map, ℕ, suc, ◌≤◌, ◌<◌, T, length, get_or, take, drop};
ghost use Rattle.std.proofs.lemmas.List.Edits.{sets};
ghost use Rattle.lists.specs.Lists.{all, below};
ghost use Rattle.pairs.specs.Pairs.{number_for, carried};
ghost use Rattle.clusters.specs.PairList.{row_start, score, pair_list, score_limit, is_allowed_pair, scores_in_range};
ghost use Rattle.clusters.specs.Pooling.{added, pooled};
ghost use Rattle.interface.specs.Sheet.{space, cut, is_name};
ghost use Rattle.interface.specs.Calls.{PoolCall};
ghost use Rattle.pooling.specs.Pools.{PlaceAmong, PlacesOn, Addable, SumsWritten, AcceptedSheet, PairsPooled, Read};

use answers::Refusal;
use arrayvec::ArrayVec;
use matrix::PairList;

// Where the word stands among the pieces of the line, counted from 0.
fn place_among(word: &[u8], line: &[u8]) -> Option<usize>
    ensures { PlaceAmong word.now (cut space line.now) result }
{
    line.split(|b| *b == b' ').position(|piece| word == piece)
}

// The places of the names of a line among those of another, if all are there.
fn places_on(first: &[u8], second: &[u8]) -> Option<ArrayVec<usize, 32>>
    requires { length (cut space first.now) ≤ 32 }
    ensures { PlacesOn (cut space first.now) (cut space second.now) result }
{
    let mut places = ArrayVec::new();
    for name in first.split(|b| *b == b' ') {
        places.push(place_among(name, second)?);
    }
    Some(places)
}

// The sum of two scores; the mark, if either is the mark.
fn added(x: i32, y: i32) -> i32
    requires { T (is_allowed_pair score_limit (carried x)) × T (is_allowed_pair score_limit (carried y)) }
    ensures { result ≡ number_for (added (carried x) (carried y)) }
{
    if pairs::is_mark(x) {
        return x;
    }
    if pairs::is_mark(y) {
        return y;
    }
    integers::narrow(i64::from(x) + i64::from(y))
}

// Adds row i of the first pair list and the pairs of the same names in the second.
fn add_row(first: &[i32], second: &[i32], places: &[usize], n: usize, i: usize, out: &mut [i32])
    requires { Addable n first.now second.now places.now × (i < n) × (row_start n ≤ length out.old) }
    ensures { out.new ≡ sets out.old (row_start i)
        (map (pooled (λ k. get_or places.now k 0) (score first.now)
        (score second.now) i) (below (suc i))) }
{
    let start = matrix::row_start(i);
    for j in 0..i + 1 {
        let at = matrix::place_of(places[i], places[j]);
        out[start + j] = added(first[start + j], second[at]);
    }
}

// Adds two pair lists of n entries, of which the second has entry i at its place.
fn add(first: &[i32], second: &[i32], places: &[usize], n: usize, out: &mut [i32])
    requires { Addable n first.now second.now places.now × (row_start n ≤ length out.old) }
    ensures { out.new ≡ pair_list n (pooled (λ k. get_or places.now k 0)
        (score first.now) (score second.now)) ++ drop (row_start n) out.old }
{
    for i in 0..n {
        add_row(first, second, places, n, i, out);
    }
}

// Writes the sheet of the names in line 1 and the sums, or the first of checks 18 and 14 that refuses.
fn write_sums(line: &[u8], sums: &[i32], n: usize, out: &mut [u8]) -> Result<usize, Refusal>
    requires { (n ≤ 32) × (n ≡ length (cut space line.now)) × T (all is_name (cut space line.now))
        × (length sums.now ≡ row_start n) }
    ensures { SumsWritten line.now sums.now out.old result out.new }
{
    if !matrix::scores_in_range(sums) {
        return Err(Refusal::SumOutOfRange);
    }
    // room for line 1 and 32 lines of 32 values, 10 bytes each, and for what the writer asks beyond
    let mut text = [0u8; 10541];
    let written = writer::write(&mut text, line, &PairList { n, pairs: sums });
    listing::hand_over(&text[..written], out)
}

// Adds two pair lists of n entries, as `add` does, and writes the sheet of the names in line 1 and the sums, or the
// first of checks 18 and 14 that refuses.
fn write_added(
    line: &[u8],
    scores: &[i32],
    others: &[i32],
    places: &[usize],
    n: usize,
    out: &mut [u8],
) -> Result<usize, Refusal>
    requires { (n ≡ length (cut space line.now)) × T (all is_name (cut space line.now))
        × Addable n scores.now others.now places.now }
    ensures { SumsWritten line.now (pair_list n (pooled (λ k. get_or places.now k 0)
        (score scores.now) (score others.now))) out.old result out.new }
{
    let mut sums = [0i32; 528];
    add(scores, others, places, n, &mut sums);
    let count = matrix::pair_count(n);
    write_sums(line, &sums[..count], n, out)
}

// The pool of two sheets of n and m entries, with their pair lists, or the first of checks 17, 18 and 14 that refuses.
fn pool_pairs(
    first: &[u8],
    second: &[u8],
    n: usize,
    m: usize,
    scores: &[i32],
    others: &[i32],
    out: &mut [u8],
) -> Result<usize, Refusal>
    requires { AcceptedSheet first.now n scores.now × AcceptedSheet second.now m others.now }
    ensures { PairsPooled first.now second.now out.old result out.new }
{
    if n != m {
        return Err(Refusal::NamesDiffer);
    }
    let end = text::line_end(first, 0);
    let end2 = text::line_end(second, 0);
    let Some(places) = places_on(&first[..end], &second[..end2]) else {
        return Err(Refusal::NamesDiffer);
    };
    write_added(&first[..end], scores, others, places.as_slice(), n, out)
}

// The pairs of n entries, in the first slots, pass check 11.
fn are_in_range(pairs: &[i32], n: usize) -> bool
    requires { (n ≤ 32) × (row_start n ≤ length pairs.now) }
    ensures { result ≡ scores_in_range (take (row_start n) pairs.now) }
{
    let count = matrix::pair_count(n);
    matrix::scores_in_range(&pairs[..count])
}

// Checks 2 to 9 and 11 and, if none refuses, the number of entries, and the pair list in the first slots.
fn read(sheet: &[u8], pairs: &mut [i32; 528]) -> Result<usize, Refusal>
    ensures { Read sheet.now result pairs.new }
{
    let n = reader::read_own(pairs, sheet)?;
    if !are_in_range(pairs, n) {
        return Err(Refusal::OutOfRange);
    }
    Ok(n)
}

// The pool of two sheets: its length, and the pool in the first bytes; or the refusal, and nothing is written.
pub fn pool(first: &[u8], second: &[u8], out: &mut [u8]) -> Result<usize, Refusal>
    ensures { PoolCall first.now second.now out.old result out.new }
{
    let mut scores = [0i32; 528];
    let n = read(first, &mut scores)?;
    let mut others = [0i32; 528];
    let m = read(second, &mut others)?;
    let count = matrix::pair_count(n);
    let count2 = matrix::pair_count(m);
    pool_pairs(
        first,
        second,
        n,
        m,
        &scores[..count],
        &others[..count2],
        out,
    )
}
