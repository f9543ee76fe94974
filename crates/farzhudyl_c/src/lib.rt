// The engine for C: each function that include/farzhudyl.h declares, as crate farzhudyl has it.
#![tactic(auto)]

ghost use Rattle.clusters.specs.Linkage.{single, average};
ghost use Rattle.interface.specs.Calls.{InC, CCall, NumbersCall, LinkageCall, AnchoredCall, BackCall, ReaderCall};
ghost use Rattle.interface.specs.Calls.{NameInC, ScoreInC, SharedInC, PoolCall, RefinedInC};

#[unsafe(no_mangle)]
pub extern "C" fn farzhudyl_listing(kind: i32, sheet: &[u8], out: &mut [u8]) -> i64
    ensures { CCall kind sheet.now out.old result out.new }
{
    farzhudyl::farzhudyl_listing(kind, sheet, out)
}

#[unsafe(no_mangle)]
pub extern "C" fn farzhudyl_numbers(
    kind: i32,
    n: usize,
    pairs: &[i32],
    sets: &mut [u32],
    indices: &mut [i64],
) -> i64
    ensures { InC (λ a. NumbersCall kind n pairs.now
        sets.old indices.old a sets.new indices.new) result }
{
    farzhudyl::farzhudyl_numbers(kind, n, pairs, sets, indices)
}

#[unsafe(no_mangle)]
pub extern "C" fn farzhudyl_single_linkage(n: usize, pairs: &[i32], blocks: &mut [u32]) -> i64
    ensures { InC (λ a. LinkageCall single n pairs.now
        blocks.old a blocks.new) result }
{
    farzhudyl::farzhudyl_single_linkage(n, pairs, blocks)
}

#[unsafe(no_mangle)]
pub extern "C" fn farzhudyl_average_linkage(n: usize, pairs: &[i32], blocks: &mut [u32]) -> i64
    ensures { InC (λ a. LinkageCall average n pairs.now
        blocks.old a blocks.new) result }
{
    farzhudyl::farzhudyl_average_linkage(n, pairs, blocks)
}

#[unsafe(no_mangle)]
pub extern "C" fn farzhudyl_anchored_scores(
    n: usize,
    anchor: usize,
    pairs: &[i32],
    out: &mut [i32],
) -> i64
    ensures { InC (λ a. AnchoredCall n anchor pairs.now
        out.old a out.new) result }
{
    farzhudyl::farzhudyl_anchored_scores(n, anchor, pairs, out)
}

#[unsafe(no_mangle)]
pub extern "C" fn farzhudyl_distances_back(
    n: usize,
    anchor: usize,
    scores: &[i32],
    out: &mut [i32],
) -> i64
    ensures { InC (λ a. BackCall n anchor scores.now
        out.old a out.new) result }
{
    farzhudyl::farzhudyl_distances_back(n, anchor, scores, out)
}

#[unsafe(no_mangle)]
pub extern "C" fn farzhudyl_pair_list(sheet: &[u8], pairs: &mut [i32; 528]) -> i64
    ensures { InC (λ a. ReaderCall sheet.now pairs.old a pairs.new) result }
{
    farzhudyl::farzhudyl_pair_list(sheet, pairs)
}

#[unsafe(no_mangle)]
pub extern "C" fn farzhudyl_name(sheet: &[u8], entry: usize, start: &mut usize) -> usize
    ensures { NameInC sheet.now entry result start.new }
{
    farzhudyl::farzhudyl_name(sheet, entry, start)
}

#[unsafe(no_mangle)]
pub extern "C" fn farzhudyl_score(
    n: usize,
    pairs: &[i32],
    a: usize,
    b: usize,
    score: &mut i64,
) -> i32
    ensures { ScoreInC n pairs.now a b score.old result score.new }
{
    farzhudyl::farzhudyl_score(n, pairs, a, b, score)
}

#[unsafe(no_mangle)]
pub extern "C" fn farzhudyl_smallest_shared(
    kind: i32,
    n: usize,
    pairs: &[i32],
    a: usize,
    b: usize,
    set: &mut u32,
) -> i64
    ensures { SharedInC kind n pairs.now a b result set.new }
{
    farzhudyl::farzhudyl_smallest_shared(kind, n, pairs, a, b, set)
}

#[unsafe(no_mangle)]
pub extern "C" fn farzhudyl_pool(first: &[u8], second: &[u8], out: &mut [u8]) -> i64
    ensures { InC (λ a. PoolCall first.now second.now
        out.old a out.new) result }
{
    farzhudyl::farzhudyl_pool(first, second, out)
}

#[unsafe(no_mangle)]
pub extern "C" fn farzhudyl_refined_weight(
    n: usize,
    pairs: &[i32],
    side: u32,
    weight: &mut i64,
) -> i32
    ensures { RefinedInC n pairs.now side result weight.new }
{
    farzhudyl::farzhudyl_refined_weight(n, pairs, side, weight)
}
