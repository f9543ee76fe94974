// The tree in which every group of a kind is found.
#![tactic(auto)]

ghost use Rattle.std.specs.Prelude.{◌+◌, ◌-◌, ◌≤◌, length, take};
ghost use Rattle.clusters.specs.Groups.{splits};
ghost use Rattle.kinds.specs.Kinds.{kind_for, Accepted};
ghost use Rattle.trees.specs.Trees.{Merged, Blocks};

use kinds::{AcceptedList, Kind};
use links::Method;
use matrix::PairList;

// The merged blocks for splits: the tree is that of the scores anchored at the first entry.
fn merge_anchored(list: &PairList<'_>, out: &mut [u32])
    requires { Accepted splits list.now.n list.now.pairs.now × (list.now.n - 1 ≤ length out.old) }
    ensures { Merged splits list.now.n list.now.pairs.now out.old out.new }
{
    let mut anchored = [0i32; 528];
    farris::anchor(list, 0, &mut anchored);
    let count = matrix::pair_count(list.n);
    linkage::merge_all(Method::Single, list.n, &anchored[..count], out);
}

fn merge(accepted: &AcceptedList<'_>, out: &mut [u32])
    requires { accepted.now.list.n - 1 ≤ length out.old }
    ensures { Merged (kind_for accepted.now.kind)
        accepted.now.list.n accepted.now.list.pairs.now out.old out.new }
{
    let list = &accepted.list;
    match accepted.kind {
        Kind::Strong => linkage::merge_all(Method::Single, list.n, list.pairs, out),
        Kind::Clean => linkage::merge_all(Method::Average, list.n, list.pairs, out),
        Kind::Splits => merge_anchored(list, out),
    }
}

// The single entries and the merged blocks.
pub fn put_blocks(accepted: &AcceptedList<'_>, out: &mut [u32])
    requires { accepted.now.list.n + (accepted.now.list.n - 1) ≤ length out.old }
    ensures { Blocks (kind_for accepted.now.kind) accepted.now.list.n accepted.now.list.pairs.now
        (take (accepted.now.list.n + (accepted.now.list.n - 1)) out.new) }
{
    let n = accepted.list.n;
    linkage::put_singles(n, out);
    merge(accepted, &mut out[n..]);
}
