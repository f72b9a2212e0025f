//! The owner of the nodes' memory: the one place of raw pointers. A slab of nodes comes in as a box and goes out by being freed.
ghost use Rattle.std.specs.Prelude.{◌≡◌, ◌+◌, List, [], ◌∷◌, ◌++◌, Some, take, drop, slice_get};
ghost use Rattle.std.specs.declared.alloc.Global.{Global};
ghost use Rattle.loc_pool.specs.Cells.{Cell};
ghost use Rattle.loc_pool.specs.declared.node.Slab.{Slab};
ghost use Rattle.loc_pool.specs.Ownership.{cells_own, cells_lent};
ghost use Rattle.std_alloc.specs.Box.Ownership.{box_owns};

use crate::node::Slab;
use std::alloc::{Allocator, Global};
use std::marker::{Model, PhantomData};

/// One value and the right to free its block, on its way between a box and the heap. It is no `Drop`, and no one outside the crate can take it
/// apart: what the heap gives out is freed, or taken in again once a node is written.
pub(crate) struct Loose<T, A: Allocator> {
    at: *mut T,
    alloc: A,
    ghost value: { T },
}

impl<T, A: Allocator> Model for Loose<T, A> {
    ghost also_owns = { λ l. box_owns (A.dealloc_token l.alloc) T.row l.at l.value };
}

impl<T: Drop, A: Allocator> Loose<T, A> {
    /// Takes a box apart.
    pub(crate) fn of(value: Box<T, A>) -> Loose<T, A>
        ensures { result.value ≡ value.value }
    {
        let (at, alloc) = Box::into_raw_with_allocator(value);
        Loose { at, alloc }
    }

    /// Makes the box again.
    pub(crate) fn into_box(self) -> Box<T, A>
        ensures { result.value ≡ self.value }
    {
        let Loose { at, alloc } = self;
        unsafe { Box::from_raw(alloc, at) }
    }

    /// The one place where a block is freed.
    pub(crate) fn free(self) {
        let block = self.into_box();
        drop(block);
    }
}

/// Where a slab lies.
#[derive(Clone, Copy, Drop)]
pub struct Address {
    at: *mut Slab,
}

/// The owner of the nodes' memory, by the handle of the heap that it is freed to. It takes no space. It is no `Drop`: it ends once each slab is taken out.
pub struct Heap {
    mark: PhantomData<u8>,
    ghost alloc: { Global },
    ghost cells: { List Cell },
}

impl Model for Heap {
    ghost also_owns = { λ h. cells_own h.alloc h.cells };

    ghost also_shares = { λ h _ κ. cells_lent h.cells κ };
}

impl Heap {
    /// A heap of no slabs.
    pub(crate) fn new() -> Heap
        ensures { result.cells ≡ [] }
    {
        Heap { mark: PhantomData }
    }

    /// The slab at an index, which lies at this address.
    pub(crate) fn get(&self, at: Address, index: usize) -> &Slab
        requires { (slab : Slab) × (slice_get self.now.cells index ≡ Some (at, slab)) }
        ensures { slice_get self.now.cells index ≡ Some (at, result.now) }
    {
        unsafe { &*at.at }
    }

    // Takes a slab in, before that at an index.
    fn own(&mut self, slab: Loose<Slab, Global>, index: usize) -> Address
        ensures { self.new.cells ≡ take index self.old.cells ++ (result, slab.value) ∷ drop index self.old.cells }
    {
        let Loose { at, alloc: _ } = slab;
        Address { at }
    }

    /// Takes out the slab at an index, which lies at this address.
    pub(crate) fn give(&mut self, alloc: Global, at: Address, index: usize) -> Loose<Slab, Global>
        requires { (slab : Slab) × (slice_get self.old.cells index ≡ Some (at, slab)) }
        ensures cells { self.new.cells ≡ take index self.old.cells ++ drop (index + 1) self.old.cells }
        ensures value { slice_get self.old.cells index ≡ Some (at, result.value) }
    {
        Loose { at: at.at, alloc }
    }

    /// Takes in the slab of a box, before that at an index.
    pub(crate) fn take(&mut self, block: Box<Slab>, index: usize) -> Address
        ensures { self.new.cells ≡ take index self.old.cells ++ (result, block.value) ∷ drop index self.old.cells }
    {
        self.own(Loose::of(block), index)
    }

    /// Ends the heap, once no slab is left.
    pub(crate) fn end(self)
        requires { self.cells ≡ [] }
    {
        let Heap { mark: _ } = self;
    }
}
