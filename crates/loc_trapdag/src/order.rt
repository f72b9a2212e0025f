// The order in which edges are added.

ghost use Rattle.std.specs.Prelude.{◌≡◌, ℕ, ◌≤◌, Ok, IfOk, IfErr, length};
ghost use Rattle.loc_spec_text.specs.Limits.{most_text};
ghost use Rattle.loc_spec_plane.specs.Lists.{numbers};
ghost use Rattle.loc_trapdag.specs.Orders.{IsOrder, IsFaultOf, order_of, shuffled_order};

use crate::reading::read_order;
use rand::seq::SliceRandom;
use rand_core::SeedableRng;
use rand_pcg::Pcg32;
use std::alloc::{AllocError, Global};
use std::marker::Model;
use thiserror::Error;

/// Why a text is no order. The fault is that of the first line that has one: it is no number, or out of range, or has the edge of an
/// earlier line. Where no line is at fault, the least edge that no line has is missing.
#[derive(Clone, Copy, Debug, Drop, Error)]
pub enum OrderFault {
    /// The line is not 1 to 20 digits with white space around.
    #[error("a line is not a number")]
    NotNumber { line: u32 },
    /// There is no edge of this number.
    #[error("a line is out of range")]
    OutOfRange { line: u32 },
    /// An earlier line has the edge.
    #[error("a line has the edge of an earlier one")]
    Twice { line: u32, earlier: u32 },
    /// No line has the edge.
    #[error("an edge is missing")]
    Missing { edge: u32 },
    /// No memory was found for the order. It says nothing of the text.
    #[error("out of memory")]
    NoMemory,
}

impl From<AllocError> for OrderFault {
    ghost use Rattle.std.specs.Prelude.{◌≡◌};
    ghost use Rattle.loc_trapdag.specs.declared.order.OrderFault.TheVariants.{NoMemory};

    ghost from_gives = { λ _ e. e ≡ NoMemory };

    fn from(_: AllocError) -> Self {
        OrderFault::NoMemory
    }
}

/// The edges of a table, each once, in the order in which they are added.
#[derive(Drop)]
pub struct Order {
    edges: Vec<u32>,
}

impl Model for Order {
    ghost use Rattle.std.specs.Prelude.{ℕ, List};

    ghost Value = { List ℕ };

    ghost view = { λ o. o.edges.items };
}

// The edges by number.
fn all_edges(alloc: Global, edges: u32) -> Result<Vec<u32>, AllocError>
    ensures { IfOk result (λ order. order.items ≡ numbers edges) }
{
    let mut order = Vec::new(alloc);
    for edge in 0..edges {
        order.push(edge)?;
    }
    Ok(order)
}

impl Order {
    /// The order of a text: an edge number in each line that is not blank.
    pub fn read(alloc: Global, text: &[u8], edges: u32) -> Result<Order, OrderFault>
        requires size { length text.now ≤ most_text }
        ensures ok { IfOk result (λ order. order_of edges text.now ≡ Ok order) }
        ensures permutation { IfOk result (IsOrder edges) }
        ensures err { IfErr result (IsFaultOf (order_of edges text.now)) }
    {
        Ok(Order {
            edges: read_order(alloc, text, edges)?,
        })
    }

    /// The edges shuffled by a generator that is started from a number.
    pub fn shuffled(alloc: Global, start: u64, edges: u32) -> Result<Order, AllocError>
        ensures value { IfOk result (λ order. order ≡ shuffled_order start edges) }
        ensures permutation { IfOk result (IsOrder edges) }
    {
        let mut order = all_edges(alloc, edges)?;
        order.shuffle(&mut Pcg32::seed_from_u64(start));
        Ok(Order { edges: order })
    }

    /// The edges in order.
    pub fn edges(&self) -> &[u32]
        ensures { result.now ≡ self.now }
    {
        &self.edges
    }
}
