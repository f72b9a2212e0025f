//! The pool: rows by their links, over the nodes in the order of making.
ghost use Rattle.std.specs.Prelude.{◌≡◌, ◌+◌, ◌-◌, ◌^◌, ◌<◌, ◌≤◌, [], ◌∷◌, ◌++◌, IsTrue, length, max, OnErr, OnOk};
ghost use Rattle.loc_pool.specs.Maps.{has, put, links};
ghost use Rattle.loc_pool.specs.Rows.{row, new_row, plain_child, with_child, child_at, stamped, IsFree, IsNew, AreNames, IsPlace};
ghost use Rattle.loc_pool.specs.Cells.{row_of};

use crate::node::Node;
use crate::slabs::{ROOM, Slabs};
use crate::{Colour, Extra, Link, Turn};
use std::alloc::{AllocError, Global};
use std::marker::Model;

/// Rows by their links, in the order of making, and room for more of them.
#[derive(Drop)]
pub struct Pool {
    slabs: Slabs,
    /// How many nodes were made.
    len: u32,
    /// How many places are free.
    free: u32,
    /// How many of the free places count as room.
    ready: u32,
}

impl Model for Pool {
    ghost use Rattle.std.specs.Prelude.{take};
    ghost use Rattle.loc_pool.specs.Rows.{Nodes};
    ghost use Rattle.loc_pool.specs.Cells.{rows_from, IsPool};

    ghost Value = { Nodes };

    ghost view = { λ p. record { rows = rows_from 1 (take p.len p.slabs); spare = p.ready } };

    ghost invariant = { λ p. IsPool p.slabs p.len p.free p.ready };
}

impl Pool {
    /// An empty pool, with no room.
    pub fn new(alloc: Global) -> Pool
        ensures { result ≡ record { rows = []; spare = 0 } }
    {
        Pool {
            slabs: Slabs::new(alloc),
            len: 0,
            free: 0,
            ready: 0,
        }
    }

    /// Takes room for 640 nodes in all. After a refusal all is as before.
    pub fn reserve(&mut self) -> Result<(), AllocError>
        ensures room { OnOk result (self.new ≡ record self.old { spare = max self.old.spare 640 }) }
        ensures refused { OnErr result (self.new ≡ self.old) }
    {
        self.free = self.slabs.make_room(self.free)?;
        self.ready = self.ready.max(ROOM);
        Ok(())
    }

    /// A new node with no extra.
    pub fn make(
        &mut self,
        item: u32,
        left: Option<Link>,
        right: Option<Link>,
        colour: Colour,
    ) -> Link
        requires room { 1 ≤ self.old.spare }
        requires few { length self.old.rows < 2 ^ 32 - 1 }
        ensures new { IsNew self.old.rows result }
        ensures rows { self.new.rows ≡ self.old.rows ++ (result, new_row item left right colour) ∷ [] }
        ensures room { self.new.spare + 1 ≡ self.old.spare }
    {
        let node = Node::new(item, left, right, colour);
        self.slabs.set(self.len as usize, node);
        self.len += 1;
        self.free -= 1;
        self.ready -= 1;
        Link { number: self.len }
    }

    /// The item of a node.
    pub fn item(&self, at: Link) -> u32
        requires { IsTrue (has self.now.rows at) }
        ensures { result ≡ (row self.now.rows at).item }
    {
        self.node(at).item()
    }

    /// The colour of a node.
    pub fn colour(&self, at: Link) -> Colour
        requires { IsTrue (has self.now.rows at) }
        ensures { result ≡ (row self.now.rows at).colour }
    {
        self.node(at).colour()
    }

    /// The extra of a node.
    pub fn extra(&self, at: Link) -> Option<Extra>
        requires { IsTrue (has self.now.rows at) }
        ensures { result ≡ (row self.now.rows at).extra }
    {
        self.node(at).extra()
    }

    /// The plain child of a node on a side.
    pub fn plain(&self, at: Link, turn: Turn) -> Option<Link>
        requires { IsTrue (has self.now.rows at) }
        ensures { result ≡ plain_child turn (row self.now.rows at) }
    {
        self.node(at).plain(turn)
    }

    /// The child of a node on a side at a version.
    pub fn child(&self, at: Link, turn: Turn, version: u32) -> Option<Link>
        requires { IsTrue (has self.now.rows at) }
        ensures { result ≡ child_at version turn (row self.now.rows at) }
    {
        self.node(at).child(turn, version)
    }

    /// Sets the extra, where there is none or one of the same side and version. With no `to` it leads to no node.
    pub fn stamp(&mut self, at: Link, turn: Turn, version: u32, to: Option<Link>)
        requires link { IsTrue (has self.old.rows at) }
        requires free { IsFree version turn (row self.old.rows at) }
        ensures { self.new ≡ record self.old { rows = put self.old.rows at (stamped version turn to (row self.old.rows at)) } }
    {
        let node = self.node(at).with_extra(turn, version, to);
        self.write(at, node);
    }

    /// Changes the plain child on a side.
    pub fn set_plain(&mut self, at: Link, turn: Turn, to: Option<Link>)
        requires { IsTrue (has self.old.rows at) }
        ensures { self.new ≡ record self.old { rows = put self.old.rows at (with_child turn to (row self.old.rows at)) } }
    {
        let node = self.node(at).with_plain(turn, to);
        self.write(at, node);
    }

    /// Changes the colour.
    pub fn set_colour(&mut self, at: Link, colour: Colour)
        requires { IsTrue (has self.old.rows at) }
        ensures { self.new ≡ record self.old { rows = put self.old.rows at (record (row self.old.rows at) { colour = colour }) } }
    {
        let node = self.node(at).with_colour(colour);
        self.write(at, node);
    }

    /// The place of a node in the order of making, from 1 on.
    pub fn number(&self, at: Link) -> u32
        requires { IsTrue (has self.now.rows at) }
        ensures { IsPlace (links self.now.rows) at result }
    {
        let _ = &self.len;
        at.number
    }

    /// The number of nodes.
    pub fn len(&self) -> u32
        ensures count { result ≡ length self.now.rows }
        ensures names { AreNames (links self.now.rows) }
    {
        self.len
    }

    /// The link of the node with a number.
    pub fn link(&self, number: u32) -> Link
        requires { (1 ≤ number) × (number ≤ length self.now.rows) }
        ensures { IsPlace (links self.now.rows) result number }
    {
        let _ = &self.len;
        Link { number }
    }

    fn node(&self, at: Link) -> &Node
        requires { IsTrue (has self.now.rows at) }
        ensures { row_of result.now ≡ row self.now.rows at }
    {
        self.slabs.get(at.number as usize - 1)
    }

    // Writes a node's row.
    fn write(&mut self, at: Link, node: Node)
        requires { IsTrue (has self.old.rows at) }
        ensures { self.new ≡ record self.old { rows = put self.old.rows at (row_of node) } }
    {
        self.slabs.set(at.number as usize - 1, node);
    }
}
