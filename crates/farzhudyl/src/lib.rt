// The sheet call, and the face in C of every call.
#![tactic(auto)]

ghost use Rattle.std.specs.Prelude.{◌≡◌, ◌^◌, ◌<◌, ◌≤◌, pos, neg_ℤ, length};
ghost use Rattle.clusters.specs.PairList.{row_start};
ghost use Rattle.clusters.specs.Linkage.{single, average};
ghost use Rattle.answers.specs.Answers.{number, count_of};
ghost use Rattle.interface.specs.Calls.{SheetCall, c_number, InC, CCall, NumbersCall, LinkageCall};
ghost use Rattle.interface.specs.Calls.{AnchoredCall, BackCall, ReaderCall, NameInC, ScoreInC, SharedInC, PoolCall};
ghost use Rattle.interface.specs.Calls.{RefinedInC};
ghost use Rattle.kinds.specs.Kinds.{number_for};
ghost use Rattle.accept.specs.Names.{NamesRead};
ghost use Rattle.farzhudyl.specs.Pairs.{PairsListed};

use accept::Names;
use answers::Refusal;
use kinds::{AcceptedList, Kind};
use matrix::PairList;

// The listing of a pair list, or the first of checks 11, 16, 12 and 14 that refuses.
fn list_pairs(kind: Kind, list: &PairList<'_>, out: &mut [u8]) -> Result<usize, Refusal>
    requires { 1 ≤ list.now.n }
    ensures { PairsListed (number_for kind) list.now.n list.now.pairs.now out.old result out.new }
{
    if !matrix::scores_in_range(list.pairs) {
        return Err(Refusal::OutOfRange);
    }
    if kind.has_wrong_unscored(list.pairs) {
        return Err(Refusal::Unscored);
    }
    if kind.are_wrong_distances(list) {
        return Err(Refusal::NoDistances);
    }
    let found = groups::of_kind(&AcceptedList { kind, list: *list });
    listing::hand_listing(found.as_slice(), out)
}

// The listing of a sheet, or the refusal: check by check.
fn list_checked(kind: Kind, sheet: &[u8], out: &mut [u8]) -> Result<usize, Refusal>
    ensures { SheetCall (number_for kind) sheet.now out.old result out.new }
{
    let mut pairs = [0i32; 528];
    let n = reader::read_checked(sheet, &mut pairs)?;
    let count = matrix::pair_count(n);
    let list = PairList {
        n,
        pairs: &pairs[..count],
    };
    list_pairs(kind, &list, out)
}

// The same in one pass where that will do, with slots for the pair list: the names are read.
fn list_with(
    pairs: &mut [i32],
    kind: Kind,
    sheet: &[u8],
    names: Names,
    out: &mut [u8],
) -> Result<usize, Refusal>
    requires { NamesRead sheet.now names.count names.next × (row_start names.count ≤ length pairs.old) }
    ensures { SheetCall (number_for kind) sheet.now out.old result out.new }
{
    let Some(n) = accept::read_rows(pairs, sheet, names) else {
        return list_checked(kind, sheet, out);
    };
    let count = matrix::pair_count(n);
    let list = PairList {
        n,
        pairs: &pairs[..count],
    };
    list_pairs(kind, &list, out)
}

// The same, with N slots: an array is cleared whole.
fn list_in<const N: usize>(
    kind: Kind,
    sheet: &[u8],
    names: Names,
    out: &mut [u8],
) -> Result<usize, Refusal>
    requires { NamesRead sheet.now names.count names.next × (row_start names.count ≤ N) × (N ≤ 528) }
    ensures { SheetCall (number_for kind) sheet.now out.old result out.new }
{
    let mut pairs = [0i32; N];
    list_with(&mut pairs, kind, sheet, names, out)
}

// The sheet call: the listing's length, and the listing in the first bytes; or the refusal, and nothing is written.
pub fn listing(kind: i32, sheet: &[u8], out: &mut [u8]) -> Result<usize, Refusal>
    ensures { SheetCall kind sheet.now out.old result out.new }
{
    let kind = Kind::try_from(kind)?;
    let Some(names) = accept::read_names(sheet) else {
        return list_checked(kind, sheet, out);
    };
    if names.count <= 8 {
        return list_in::<36>(kind, sheet, names, out);
    }
    if names.count <= 16 {
        return list_in::<136>(kind, sheet, names, out);
    }
    list_in::<528>(kind, sheet, names, out)
}

// A refusal as minus its number.
fn minus_number(refusal: Refusal) -> i64
    ensures { result ≡ neg_ℤ (pos (number refusal)) }
{
    -i64::from(refusal.number())
}

// An answer as the number that C is given.
fn as_number(answer: Result<usize, Refusal>) -> i64
    requires { count_of answer < 2 ^ 63 }
    ensures { result ≡ c_number answer }
{
    match answer {
        Ok(count) => count as i64,
        Err(refusal) => minus_number(refusal),
    }
}

// The faces in C, which crate farzhudyl_c exports and include/farzhudyl.h declares: a count is answered as it is, a
// refusal as minus its number.

pub fn farzhudyl_listing(kind: i32, sheet: &[u8], out: &mut [u8]) -> i64
    ensures { CCall kind sheet.now out.old result out.new }
{
    as_number(listing(kind, sheet, out))
}

pub fn farzhudyl_numbers(
    kind: i32,
    n: usize,
    pairs: &[i32],
    sets: &mut [u32],
    indices: &mut [i64],
) -> i64
    ensures { InC (λ a. NumbersCall kind n pairs.now
        sets.old indices.old a sets.new indices.new) result }
{
    as_number(groups::numbers(kind, n, pairs, sets, indices))
}

pub fn farzhudyl_single_linkage(n: usize, pairs: &[i32], blocks: &mut [u32]) -> i64
    ensures { InC (λ a. LinkageCall single n pairs.now
        blocks.old a blocks.new) result }
{
    as_number(linkage::single_linkage(n, pairs, blocks))
}

pub fn farzhudyl_average_linkage(n: usize, pairs: &[i32], blocks: &mut [u32]) -> i64
    ensures { InC (λ a. LinkageCall average n pairs.now
        blocks.old a blocks.new) result }
{
    as_number(linkage::average_linkage(n, pairs, blocks))
}

pub fn farzhudyl_anchored_scores(n: usize, anchor: usize, pairs: &[i32], out: &mut [i32]) -> i64
    ensures { InC (λ a. AnchoredCall n anchor pairs.now
        out.old a out.new) result }
{
    as_number(farris::anchored_scores(n, anchor, pairs, out))
}

pub fn farzhudyl_distances_back(n: usize, anchor: usize, scores: &[i32], out: &mut [i32]) -> i64
    ensures { InC (λ a. BackCall n anchor scores.now
        out.old a out.new) result }
{
    as_number(farris::distances_back(n, anchor, scores, out))
}

pub fn farzhudyl_pair_list(sheet: &[u8], pairs: &mut [i32; 528]) -> i64
    ensures { InC (λ a. ReaderCall sheet.now pairs.old a pairs.new) result }
{
    as_number(reader::read(sheet, pairs))
}

// A C function hands no part of the sheet back: the part's length is answered, and its start goes to a slot.
pub fn farzhudyl_name(sheet: &[u8], entry: usize, start: &mut usize) -> usize
    ensures { NameInC sheet.now entry result start.new }
{
    let part = reader::name_part(sheet, entry);
    *start = part.start;
    part.end - part.start
}

// A score may be negative, so it goes to a slot, as its number in the pair list; 0 is answered, or the refusal's
// number.
pub fn farzhudyl_score(n: usize, pairs: &[i32], a: usize, b: usize, score: &mut i64) -> i32
    ensures { ScoreInC n pairs.now a b score.old result score.new }
{
    if let Err(refusal) = triangle::check_score(n, pairs, a, b) {
        return i32::from(refusal.number());
    }
    *score = i64::from(i32::from(triangle::pair_of(pairs, n, a, b)));
    0
}

// The line is answered, and the set goes to a slot; on refusal 0 does.
pub fn farzhudyl_smallest_shared(
    kind: i32,
    n: usize,
    pairs: &[i32],
    a: usize,
    b: usize,
    set: &mut u32,
) -> i64
    ensures { SharedInC kind n pairs.now a b result set.new }
{
    match shared::smallest_shared(kind, n, pairs, a, b) {
        Ok(found) => {
            *set = found.set;
            found.line as i64
        }
        Err(refusal) => {
            *set = 0;
            minus_number(refusal)
        }
    }
}

pub fn farzhudyl_pool(first: &[u8], second: &[u8], out: &mut [u8]) -> i64
    ensures { InC (λ a. PoolCall first.now second.now
        out.old a out.new) result }
{
    as_number(pooling::pool(first, second, out))
}

// A weight may be negative, so it goes to a slot, on refusal 0; 0 is answered, or the refusal's number.
pub fn farzhudyl_refined_weight(n: usize, pairs: &[i32], side: u32, weight: &mut i64) -> i32
    ensures { RefinedInC n pairs.now side result weight.new }
{
    match refined::refined_weight(n, pairs, side) {
        Ok(found) => {
            *weight = found;
            0
        }
        Err(refusal) => {
            *weight = 0;
            i32::from(refusal.number())
        }
    }
}
