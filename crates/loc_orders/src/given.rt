//! An order of edges that was given.

ghost use Rattle.std.specs.Prelude.{◌≡◌, IfOk};
ghost use Rattle.loc_trapdag.specs.Orders.{IsOrder};
ghost use Rattle.loc_orders.specs.OrderCourses.{IsGivenOrder, order_given};

use loc_trapdag::Order;
use std::alloc::{AllocError, Global};

/// An order of edges that was read, or the number from which one is shuffled.
#[derive(Drop)]
pub enum GivenOrder {
    Read(Order),
    Shuffled(u64),
}

impl GivenOrder {
    /// The order of so many edges.
    pub fn order(self, alloc: Global, edges: u32) -> Result<Order, AllocError>
        requires permutation { IsGivenOrder edges self }
        ensures permutation { IfOk result (IsOrder edges) }
        ensures value { IfOk result (λ order. order ≡ order_given edges self) }
    {
        match self {
            GivenOrder::Read(order) => Ok(order),
            GivenOrder::Shuffled(number) => Order::shuffled(alloc, number, edges),
        }
    }
}
