//! Steps of a row that make layers and points by a rule.

ghost use Rattle.std.specs.Prelude.{◌<◌, ◌^◌};

use crate::making::{cut, number};
use crate::page::Page;
use std::alloc::Global;
use std::mem;

// The ring of a square from a corner to the opposite one, between two texts.
fn put_ring(page: &mut Page, before: &str, low: u64, high: u64) {
    let corners = [
        (before, low),
        (" ", low),
        (", ", high),
        (" ", low),
        (", ", high),
        (" ", high),
        (", ", low),
        (" ", high),
        (", ", low),
        (" ", low),
    ];
    page.put_numbers(&corners, "))");
}

// So many squares, one in another: what stands before the first, before each other one, and behind all.
fn put_nested(page: &mut Page, count: u64, first: &'static str, next: &'static str, end: &str)
    requires { count < 2 ^ 32 }
{
    let mut before = first;
    for low in 0..count {
        put_ring(page, before, low, 4 * count - low);
        before = next;
    }
    page.put(end);
}

// A ring of so many steps along a line, and back in one.
fn put_steps(page: &mut Page, count: u64)
    requires { count < 2 ^ 32 }
{
    page.put("POLYGON ((0 0");
    for x in 1..count + 1 {
        page.put_numbers(&[(", ", x)], " 0");
    }
    page.put(", 0 0))\n");
}

// A ring of one point fewer than twice so many: the two ends of that line by turns. The corners of the other ring cut each side of this one.
fn put_turns(page: &mut Page, count: u64) {
    page.put("POLYGON ((0 0");
    for _ in 1..count {
        page.put_numbers(&[(", ", count)], " 0, 0 0");
    }
    page.put("))\n");
}

// The points that are asked of a generated layer of this size and shift, for a shift below 65536, as docs/FORMATS.md has them.
fn put_points(page: &mut Page, count: u64, shift: u64)
    requires count { count < 2 ^ 32 }
    requires shift { shift < 2 ^ 32 }
{
    for t in 0..count {
        let x = shift + t * 40503 % (4 * count);
        let y = t * 25173 % (2 * count);
        page.put_numbers(&[("", x), (" ", y)], "\n");
    }
}

// The 81 points from -1 -3 to 7 5.
fn put_grid(page: &mut Page) {
    for n in 0..81i32 {
        let (x, y) = (n / 9 - 1, n % 9 - 3);
        let done = writeln!(page.text, "{x} {y}");
        page.note(done.is_err());
    }
}

// Prints what a step makes of a count, and of what stands behind it.
fn put_shape(page: &mut Page, verb: &str, count: u64, shift: &str)
    requires { count < 2 ^ 32 }
{
    match verb {
        "nested" => put_nested(page, count, "POLYGON ((", "\nPOLYGON ((", "\n"),
        "within" => put_nested(page, count, "MULTIPOLYGON (((", ", ((", ")\n"),
        "turns" => {
            put_steps(page, count);
            put_turns(page, count);
        }
        "points" => {
            let shift = number(page, shift);
            put_points(page, count, shift);
        }
        _ => page.refuse(),
    }
}

/// Makes a file by a step: `nested NAME COUNT`, `within NAME COUNT` and `turns NAME COUNT` a layer, `points NAME COUNT SHIFT` and `grid NAME` points.
pub(crate) fn shape(page: &mut Page, alloc: Global, verb: &str, rest: &str) {
    let printed = mem::replace(&mut page.text, String::new(alloc));
    if verb == "grid" {
        put_grid(page);
    } else {
        let (count, shift) = cut(rest);
        let count = number(page, count);
        put_shape(page, verb, count, shift);
    }
    let text = mem::replace(&mut page.text, printed);
    page.made = text.into_bytes();
}
