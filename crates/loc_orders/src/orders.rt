//! The order's file.

ghost use Rattle.std.specs.Prelude.{◌≤◌, IfOk, List, ℕ, length};
ghost use Rattle.loc_spec_asked.specs.Orders.{asked_order};
ghost use Rattle.loc_course.specs.Courses.{Course};
ghost use Rattle.loc_course.specs.Following.{Moment};
ghost use Rattle.loc_course.specs.Runs.{GoesOnFiles};
ghost use Rattle.loc_course.specs.Stops.{GoesOn};
ghost use Rattle.loc_spec_text.specs.Limits.{most_text};
ghost use Rattle.loc_trapdag.specs.Orders.{IsOrder, order_of};
ghost use Rattle.loc_orders.specs.OrderCourses.{IsGivenOrder, asked_course, order_course, order_in};
ghost use Rattle.loc_orders.specs.declared.given.GivenOrder.{GivenOrder};

use crate::given::GivenOrder;
use crate::lines::order_stop_of;
use loc_course::{Stop, read_source};
use loc_io::Shelf;
use loc_spec_asked::EdgeOrder;
use loc_spec_text::MOST_TEXT;
use loc_trapdag::Order;
use std::alloc::Global;

// The order that a text is.
fn read_order_in(alloc: Global, text: &[u8], edges: u32) -> Result<Order, Stop>
    requires { length text.now ≤ most_text }
    ensures goes_on { (next : List ℕ → Course) (m : Moment)
        → GoesOn (order_in (order_of edges text.now) next) m next m result }
    ensures permutation { IfOk result (IsOrder edges) }
{
    match Order::read(alloc, text, edges) {
        Ok(order) => Ok(order),
        Err(fault) => Err(order_stop_of(fault)),
    }
}

// Reads the file of an order of so many edges.
fn read_order<F: Shelf>(alloc: Global, shelf: &mut F, name: &str, edges: u32) -> Result<Order, Stop>
    ensures goes_on { GoesOnFiles (order_course name.now edges) (λ next. next) F.meaning shelf result }
    ensures permutation { IfOk result (IsOrder edges) }
{
    let text = read_source(alloc, shelf, name, MOST_TEXT, b"order: too long")?;
    read_order_in(alloc, &text, edges)
}

/// Reads the file of an order of so many edges, where one is asked for.
pub fn read_order_file<F: Shelf>(
    alloc: Global,
    shelf: &mut F,
    order: EdgeOrder<'_>,
    edges: u32,
) -> Result<GivenOrder, Stop>
    ensures goes_on { GoesOnFiles (asked_course (asked_order order.entry) edges) (λ next. next)
        F.meaning shelf result }
    ensures permutation { IfOk result (IsGivenOrder edges) }
{
    match order {
        EdgeOrder::File(name) => Ok(GivenOrder::Read(read_order(alloc, shelf, name, edges)?)),
        EdgeOrder::Shuffled(number) => Ok(GivenOrder::Shuffled(number)),
    }
}
