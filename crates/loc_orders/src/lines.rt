//! The lines that name what is wrong with an order.

ghost use Rattle.std.specs.Prelude.{◌≡◌, ◌≤◌, ◌++◌, codes, length};
ghost use Rattle.std.specs.Fmt.{decimal};
ghost use Rattle.loc_spec_text.specs.Points.{ended};
ghost use Rattle.loc_course.specs.Lines.{line_text};
ghost use Rattle.loc_course.specs.Stops.{stopped};
ghost use Rattle.loc_orders.specs.OrderTexts.{again_text, at_line, missing_text, order_stop};

use loc_course::{Line, Part, Stop};
use loc_trapdag::OrderFault;

// What is wrong with a line.
fn at_line_words(line: u32, words: &[u8]) -> Line
    requires { length words.now ≤ 24 }
    ensures { line_text result ≡ ended (at_line line words.now) }
{
    Line {
        parts: [
            Part::of(b"order line "),
            Part::Number(line),
            Part::of(b": "),
            Part::of(words),
            Part::None,
            Part::None,
        ],
    }
}

// A line has the edge of an earlier one.
fn again_line(line: u32, earlier: u32) -> Line
    ensures { line_text result ≡ ended (at_line line (again_text earlier)) }
{
    Line {
        parts: [
            Part::of(b"order line "),
            Part::Number(line),
            Part::of(b": edge of line "),
            Part::Number(earlier),
            Part::of(b" again"),
            Part::None,
        ],
    }
}

// No line has the edge.
fn missing_line(edge: u32) -> Line
    ensures { line_text result ≡ ended (missing_text edge) }
{
    Line {
        parts: [
            Part::of(b"order: edge "),
            Part::Number(edge),
            Part::of(b" missing"),
            Part::None,
            Part::None,
            Part::None,
        ],
    }
}

/// Why a command stops where an order is at fault.
pub(crate) fn order_stop_of(fault: OrderFault) -> Stop
    ensures { stopped result ≡ order_stop fault }
{
    match fault {
        OrderFault::NotNumber { line } => Stop::Refused(at_line_words(line, b"not a number")),
        OrderFault::OutOfRange { line } => Stop::Refused(at_line_words(line, b"out of range")),
        OrderFault::Twice { line, earlier } => Stop::Refused(again_line(line, earlier)),
        OrderFault::Missing { edge } => Stop::Refused(missing_line(edge)),
        OrderFault::NoMemory => Stop::NoMemory,
    }
}
