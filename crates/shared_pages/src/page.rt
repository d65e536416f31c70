// Pages of nodes.
ghost use Rattle.std.specs.Prelude.{◌≡◌, ◌≤◌, ◌<◌, length, IfOk, OnOk};
ghost use Rattle.std.specs.List.{AllByRecursion, flat_map};
ghost use Rattle.shared_pages.specs.Nodes.{Adds, first_of};
ghost use Rattle.shared_pages.specs.Pages.{page_items, IsPage};

use crate::edit::Edit;
use crate::item::Item;
use crate::level::{edit_level, item_at, last_up_to};
use crate::node::{Node, Single};
use crate::search::Placed;
use cite_schema::{NoMemory, Shared};
use std::alloc::Global;
use std::mem;

/// How many nodes a page can hold.
pub const CAPACITY: usize = 64;

/// A page of nodes that any number of sequences share.
#[derive(Drop)]
pub struct Page<N> {
    pub nodes: Shared<Vec<N>>,
    pub count: u64,
}

/// A page of items.
pub type Leaf<T> = Page<Single<T>>;

/// A page of leaves.
pub type Branch<T> = Page<Leaf<T>>;

/// A page of branches.
pub type Trunk<T> = Page<Branch<T>>;

impl<T: Item, N: Node<T>> Placed<T> for Page<N> {
    ghost use Rattle.shared_pages.specs.Pages.{page_items, IsPage};
    ghost use Rattle.shared_pages.specs.Nodes.{first_of};

    ghost at = { λ s. first_of (page_items N.items s) };

    ghost whole = { IsPage N.items N.whole };

    fn at(&self) -> &T {
        self.nodes.get()[0].at()
    }
}

impl<T: Item, N: Node<T>> Node<T> for Page<N> {
    ghost use Rattle.shared_pages.specs.Pages.{page_items};
    ghost use Rattle.std.specs.Prelude.{refl};

    ghost items = { page_items N.items };

    fn count(&self) -> u64 {
        self.count
    }

    fn share(&self) -> Result<Page<N>, NoMemory> {
        let nodes = self.nodes.share()?;
        Ok(Page {
            nodes,
            count: self.count,
        })
    }

    fn make(alloc: Global, edits: &[Edit<T>], out: &mut Vec<Page<N>>) -> Result<(), NoMemory> {
        let mut nodes = Vec::new(alloc);
        N::make(alloc, edits, &mut nodes)?;
        paginate(alloc, nodes, out)?;
        Ok(())
    }

    fn edit(
        &self,
        alloc: Global,
        edits: &[Edit<T>],
        out: &mut Vec<Page<N>>,
    ) -> Result<(), NoMemory> {
        let nodes = edit_level(alloc, self.nodes.get(), edits)?;
        paginate(alloc, nodes, out)?;
        Ok(())
    }

    fn last_up_to(&self, probe: &T) -> Option<&T> {
        last_up_to(self.nodes.get(), probe)
    }

    fn get(&self, place: u64) -> Option<&T> {
        item_at(self.nodes.get(), place)
    }

    ghost led = { λ n. refl };
}

/// Puts the nodes behind others, in pages; if they are more than a page can hold, in pages of about one size, which are
/// at least half full.
pub fn paginate<T: Item, N: Node<T>>(
    alloc: Global,
    nodes: Vec<N>,
    out: &mut Vec<Page<N>>,
) -> Result<(), NoMemory>
    requires { AllByRecursion N.whole nodes.items }
    ensures { OnOk result (Adds (page_items N.items) (IsPage N.items N.whole) out.old.items out.new.items (flat_map N.items nodes.items)) }
{
    if nodes.len() <= CAPACITY {
        close(alloc, nodes, out)?;
        return Ok(());
    }
    let size = page_size(nodes.len());
    let mut page = Vec::with_capacity(alloc, size)?;
    for node in nodes {
        if page.len() >= size {
            let full = mem::replace(&mut page, Vec::with_capacity(alloc, size)?);
            close(alloc, full, out)?;
        }
        page.push(node)?;
    }
    close(alloc, page, out)?;
    Ok(())
}

// The size of the pages of so many nodes.
fn page_size(count: usize) -> usize
    ensures some { 0 < result }
    ensures few { result ≤ CAPACITY }
{
    let pages = count / CAPACITY + 1;
    (count / pages + 1).min(CAPACITY)
}

// Puts a page of the nodes behind others, if there are any.
fn close<T: Item, N: Node<T>>(
    alloc: Global,
    nodes: Vec<N>,
    out: &mut Vec<Page<N>>,
) -> Result<(), NoMemory>
    requires whole { AllByRecursion N.whole nodes.items }
    requires few { length nodes.items ≤ CAPACITY }
    ensures { OnOk result (Adds (page_items N.items) (IsPage N.items N.whole) out.old.items out.new.items (flat_map N.items nodes.items)) }
{
    if !nodes.is_empty() {
        let count = count_all(nodes.as_slice())?;
        let nodes = Shared::make(alloc, nodes)?;
        out.push(Page { nodes, count })?;
    }
    Ok(())
}

/// How many items nodes hold. Where they are 2^64 or more, which no memory could hold apart, it is want of memory.
pub fn count_all<T: Item, N: Node<T>>(nodes: &[N]) -> Result<u64, NoMemory>
    requires { AllByRecursion N.whole nodes.now }
    ensures { IfOk result (λ r. r ≡ length (flat_map N.items nodes.now)) }
{
    let mut all = 0u64;
    for node in nodes {
        match all.checked_add(node.count()) {
            Some(more) => all = more,
            None => return Err(NoMemory),
        }
    }
    Ok(all)
}
