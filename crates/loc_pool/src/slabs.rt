//! The nodes in the order of making: slabs of memory, one behind the other. Safe code over the heap.
ghost use Rattle.std.specs.Prelude.{◌≡◌, ◌+◌, ◌<◌, ◌≤◌, List, [], ◌++◌, Some, OnOk, OnErr, IfOk, length, slice_get, slice_set};
ghost use Rattle.loc_pool.specs.declared.node.Node.{Node};
ghost use Rattle.loc_pool.specs.Cells.{addresses};

use crate::heap::{Address, Heap};
use crate::node::{Node, SLAB, Slab};
use std::alloc::{AllocError, Global};
use std::marker::Model;

/// For how many nodes `reserve` takes room.
pub(crate) const ROOM: u32 = 640;

/// All nodes that there is memory for.
pub struct Slabs {
    heap: Heap,
    blocks: Vec<Address>,
    alloc: Global,
}

impl Model for Slabs {
    ghost use Rattle.std.specs.Prelude.{◌≡◌, List};
    ghost use Rattle.loc_pool.specs.declared.node.Node.{Node};
    ghost use Rattle.loc_pool.specs.Cells.{addresses, nodes_of, IsFull};

    ghost Value = { List Node };

    ghost view = { λ s. nodes_of s.heap.cells };

    ghost invariant = { λ s. (addresses s.heap.cells ≡ s.blocks.items) × IsFull s.heap.cells };
}

impl Slabs {
    /// No slabs.
    pub(crate) fn new(alloc: Global) -> Slabs
        ensures { result ≡ [] }
    {
        Slabs {
            heap: Heap::new(),
            blocks: Vec::new(alloc),
            alloc,
        }
    }

    /// The node at an index.
    pub(crate) fn get(&self, index: usize) -> &Node
        requires { index < length self.now }
        ensures { slice_get self.now index ≡ Some result.now }
    {
        let slab = index / SLAB;
        self.heap.get(self.blocks[slab], slab).node(index % SLAB)
    }

    /// Writes the node at an index, in its slab.
    pub(crate) fn set(&mut self, index: usize, node: Node)
        requires { index < length self.old }
        ensures { self.new ≡ slice_set self.old index node }
    {
        let slab = index / SLAB;
        let mut block = self
            .heap
            .give(self.alloc, self.blocks[slab], slab)
            .into_box();
        block.put(index % SLAB, node);
        self.blocks[slab] = self.heap.take(block, slab);
    }

    // One slab more.
    fn grow(&mut self) -> Result<(), AllocError>
        ensures more { OnOk result ((more : List Node) × (length more ≡ 1024) × (self.new ≡ self.old ++ more)) }
        ensures refused { OnErr result (self.new ≡ self.old) }
    {
        self.blocks.reserve(1)?;
        let block = Box::new(self.alloc, Slab::new())?;
        let index = self.blocks.len();
        let at = self.heap.take(block, index);
        self.blocks.push(at).unwrap();
        Ok(())
    }

    /// A slab more where fewer than 640 places are free. It answers how many are free then.
    pub(crate) fn make_room(&mut self, free: u32) -> Result<u32, AllocError>
        ensures room { IfOk result (λ now. (more : List Node) × (640 ≤ now) × (now ≡ free + length more) × (self.new ≡ self.old ++ more)) }
        ensures refused { OnErr result (self.new ≡ self.old) }
    {
        if free >= ROOM {
            return Ok(free);
        }
        self.grow()?;
        Ok(free + SLAB as u32)
    }
}

impl Drop for Slabs {
    fn drop(self) {
        let Slabs {
            mut heap,
            blocks,
            alloc,
        } = self;
        free_all(&mut heap, alloc, &blocks);
        heap.end();
    }
}

fn free_all(heap: &mut Heap, alloc: Global, blocks: &[Address])
    requires { addresses heap.old.cells ≡ blocks.now }
    ensures { heap.new.cells ≡ [] }
{
    'frees: for at in blocks {
        heap.give(alloc, *at, 0).free();
    }
}
