// A walk over the items of a sequence.
ghost use Rattle.std.specs.Iterator.{YieldsFirstRef, item_count};
ghost use Rattle.std.specs.Prelude.{◌≡◌, ◌++◌, [], MatchOption};
ghost use Rattle.std.specs.List.{AllByRecursion, flat_map};
ghost use Rattle.std.specs.List.Sorted.{IsStrictlySortedBy};
ghost use Rattle.shared_pages.specs.Singles.{single_item};
ghost use Rattle.shared_pages.specs.Probes.{all_from};
ghost use Rattle.shared_pages.specs.Sequences.{IsLeaf, IsBranch, IsTrunk, leaf_items, branch_items, trunk_items};
ghost use Rattle.shared_pages.specs.Walks.{to_come, IsFrom};

use crate::item::Item;
use crate::level::node_for;
use crate::node::{Node, Single};
use crate::page::{Branch, Leaf, Trunk};
use crate::search::count_before;

/// The items of a sequence that are still to come, one after the other. No item is copied.
#[derive(Drop)]
pub struct Items<'a, T> {
    /// The rest of the page that is being gone through.
    pub items: &'a [Single<T>],
    /// The leaves that come then.
    pub leaves: &'a [Leaf<T>],
    /// The branches that come after those leaves.
    pub branches: &'a [Branch<T>],
    /// The trunks that come after those branches.
    pub trunks: &'a [Trunk<T>],
}

impl<'a, T: Item> Iterator for Items<'a, T> {
    ghost use Rattle.shared_pages.specs.Walks.{to_come};

    type Item = &'a T;

    ghost next_gives = { YieldsFirstRef to_come };

    ghost remaining = { item_count to_come };

    fn next(&mut self) -> Option<&'a T> {
        loop {
            if let Some((first, more)) = self.items.split_first() {
                self.items = more;
                return Some(&first.item);
            }
            if let Some((leaf, more)) = self.leaves.split_first() {
                self.items = leaf.nodes.get();
                self.leaves = more;
            } else if let Some((branch, more)) = self.branches.split_first() {
                self.leaves = branch.nodes.get();
                self.branches = more;
            } else if let Some((trunk, more)) = self.trunks.split_first() {
                self.branches = trunk.nodes.get();
                self.trunks = more;
            } else {
                return None;
            }
        }
    }
}

/// A walk over the items of branches, and then of trunks.
pub fn walk<'a, T: Item>(branches: &'a [Branch<T>], trunks: &'a [Trunk<T>]) -> Items<'a, T>
    ensures { to_come result ≡ flat_map branch_items branches.now ++ flat_map trunk_items trunks.now }
{
    Items {
        items: &[],
        leaves: &[],
        branches,
        trunks,
    }
}

/// A walk over the items of trunks that aren't below a probe.
pub fn walk_from<'a, T: Item>(trunks: &'a [Trunk<T>], probe: &T) -> Items<'a, T>
    requires whole { AllByRecursion IsTrunk trunks.now }
    requires sorted { IsStrictlySortedBy T.cmp (flat_map trunk_items trunks.now) }
    ensures { to_come result ≡ all_from T.cmp probe.now (flat_map trunk_items trunks.now) }
{
    match split_from(trunks, probe) {
        None => walk(&[], &[]),
        Some((trunk, trunks)) => from_branches(trunk.nodes.get(), trunks, probe),
    }
}

// A walk over the items of branches that aren't below a probe, and then over those of trunks.
fn from_branches<'a, T: Item>(
    branches: &'a [Branch<T>],
    trunks: &'a [Trunk<T>],
    probe: &T,
) -> Items<'a, T>
    requires whole { AllByRecursion IsBranch branches.now }
    requires sorted { IsStrictlySortedBy T.cmp (flat_map branch_items branches.now) }
    ensures { to_come result ≡ all_from T.cmp probe.now (flat_map branch_items branches.now) ++ flat_map trunk_items trunks.now }
{
    match split_from(branches, probe) {
        None => walk(&[], trunks),
        Some((branch, branches)) => from_leaves(branch.nodes.get(), branches, trunks, probe),
    }
}

// A walk over the items of leaves that aren't below a probe, and then over those of branches and of trunks.
fn from_leaves<'a, T: Item>(
    leaves: &'a [Leaf<T>],
    branches: &'a [Branch<T>],
    trunks: &'a [Trunk<T>],
    probe: &T,
) -> Items<'a, T>
    requires whole { AllByRecursion IsLeaf leaves.now }
    requires sorted { IsStrictlySortedBy T.cmp (flat_map leaf_items leaves.now) }
    ensures { to_come result ≡ all_from T.cmp probe.now (flat_map leaf_items leaves.now) ++ (flat_map branch_items branches.now ++ flat_map trunk_items trunks.now) }
{
    match split_from(leaves, probe) {
        None => walk(branches, trunks),
        Some((leaf, leaves)) => Items {
            items: singles_from(leaf.nodes.get(), probe),
            leaves,
            branches,
            trunks,
        },
    }
}

// The node on which a probe falls, and the nodes behind it.
fn split_from<'a, T: Item, N: Node<T>>(nodes: &'a [N], probe: &T) -> Option<(&'a N, &'a [N])>
    requires whole { AllByRecursion N.whole nodes.now }
    requires sorted { IsStrictlySortedBy T.cmp (flat_map N.items nodes.now) }
    ensures { MatchOption result (nodes.now ≡ []) (λ r. IsFrom T.cmp N.items N.whole probe.now nodes.now r.0.now r.1.now) }
{
    if nodes.is_empty() {
        return None;
    }
    let at = node_for(nodes, probe);
    let (_, rest) = nodes.split_at(at + 1);
    Some((&nodes[at], rest))
}

// The items that aren't below a probe.
fn singles_from<'a, T: Item>(items: &'a [Single<T>], probe: &T) -> &'a [Single<T>]
    requires { IsStrictlySortedBy T.cmp (flat_map single_item items.now) }
    ensures { flat_map single_item result.now ≡ all_from T.cmp probe.now (flat_map single_item items.now) }
{
    let (_, from) = items.split_at(count_before(items, probe, false));
    from
}
