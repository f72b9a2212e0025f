// What is kept while a geometry text is read.

ghost use Rattle.std.specs.Prelude.{◌≡◌, ◌+◌, ◌<◌, ◌≤◌, ◌^◌, ◌++◌, ℕ, List, [], ◌∷◌, length, true, if◌then◌else◌, option_map, IfSome, IfNone, MatchOption, Some, None, OnOk};
ghost use Rattle.loc_rings.specs.Values.{IsRing};
ghost use Rattle.loc_spec_plane.specs.Points.{OnGrid};
ghost use Rattle.loc_spec_text.specs.Bytes.{or_else};
ghost use Rattle.loc_spec_text.specs.Geometry.{symbols, two};
ghost use Rattle.loc_spec_text.specs.Reader.{wide_more, wide_point_at};
ghost use Rattle.loc_spec_text.specs.Reading.{all_rings, number_fault as number_fault_of, ring_fault as fault_of};
ghost use Rattle.loc_wkt.specs.GridNumbers.{IsBounded, IsGridNumber};
ghost use Rattle.loc_wkt.specs.NumberTexts.{text_of};
ghost use Rattle.loc_wkt.specs.Lists.{IsFurther, IsRead};
ghost use Rattle.loc_wkt.specs.Passes.{HasRoom, after_number, after_point, nothing_read, point_or_zero, value_or_zero, with_values};

use crate::grid_numbers::{GridNumber, NumberText, on_grid};
use crate::marks::next_number;
use loc_geom::Point;
use loc_rings::Rings;
use loc_spec_text::TextFault;
use std::alloc::{AllocError, Global};

/// How many have come, and the fault of the first that had one.
#[derive(Clone, Copy, Drop)]
pub(crate) struct Counter {
    pub count: u32,
    pub fault: Option<TextFault>,
}

/// What a text has given so far: the first faults, and the polygons, in which rings at fault are left out and numbers at fault are 0.
#[derive(Drop)]
pub(crate) struct Values {
    pub scale: u8,
    pub numbers: Counter,
    pub rings: Counter,
    /// Whether a point had more than two numbers.
    pub is_wide: bool,
    pub built: Rings,
}

impl Counter {
    /// None so far.
    pub(crate) fn none() -> Counter
        ensures { result ≡ record { count = 0; fault = None } }
    {
        Counter {
            count: 0,
            fault: None,
        }
    }

    /// One more has come. Its fault is kept where it is the first.
    fn with(self, fault: Option<TextFault>) -> Counter
        requires { self.count < 2 ^ 28 }
        ensures { result ≡ record { count = self.count + 1; fault = or_else self.fault fault } }
    {
        Counter {
            count: self.count + 1,
            fault: self.fault.or(fault),
        }
    }
}

/// The fault of a number that comes as number `count`.
fn number_fault(number: GridNumber, count: u32) -> Option<TextFault>
    ensures { (scale : ℕ) (text : List ℕ) → IsGridNumber scale text number → result ≡ option_map (λ f. f count) (number_fault_of scale text) }
{
    match number {
        GridNumber::OnGrid(_) => None,
        GridNumber::OffGrid => Some(TextFault::OffGrid { number: count }),
        GridNumber::OutOfRange => Some(TextFault::Range { number: count }),
    }
}

/// The grid value of a number, or 0 where it is at fault.
fn number_value(number: GridNumber) -> i64
    requires { IsBounded number }
    ensures value { (scale : ℕ) (text : List ℕ) → IsGridNumber scale text number → result ≡ value_or_zero scale text }
    ensures bound { OnGrid result }
{
    match number {
        GridNumber::OnGrid(value) => value,
        GridNumber::OffGrid | GridNumber::OutOfRange => 0,
    }
}

/// The fault of a point list that is ring number `ring`: it has fewer than four points, or its first is not its last.
fn ring_fault(points: &[Point], ring: u32) -> Option<TextFault>
    ensures fault { result ≡ option_map (λ f. f ring) (fault_of points.now) }
    ensures ring { IfNone result (IsRing points.now) }
{
    match points {
        [first, .., last] if points.len() >= 4 => {
            if first == last {
                None
            } else {
                Some(TextFault::RingOpen { ring })
            }
        }
        _ => Some(TextFault::RingShort { ring }),
    }
}

/// What follows one or two numbers that stand behind the first two of a point.
fn behind_further(text: &[u8]) -> Option<&[u8]>
    ensures read { (x y : List ℕ) → MatchOption result (wide_more x y (symbols text.now) ≡ Some (two x y, symbols text.now)) (λ rest. IsFurther x y (symbols text.now) (symbols rest.now)) }
    ensures shorter { IfSome result (λ rest. length rest.now < length text.now) }
{
    let (_, rest) = next_number(text)?;
    match next_number(rest) {
        Some((_, behind)) => Some(behind),
        None => Some(rest),
    }
}

impl Values {
    /// Nothing has been read.
    pub(crate) fn new(alloc: Global, scale: u8) -> Values
        ensures { result ≡ nothing_read scale }
    {
        Values {
            scale,
            numbers: Counter::none(),
            rings: Counter::none(),
            is_wide: false,
            built: Rings::new(alloc),
        }
    }

    /// The grid value of the next number, or 0 where it is off the grid or out of range.
    pub(crate) fn value(&mut self, text: &NumberText<'_>) -> i64
        requires scale { self.old.scale ≤ 15 }
        requires room { self.old.numbers.count < 2 ^ 28 }
        ensures value { result ≡ value_or_zero self.old.scale (text_of text.now) }
        ensures counted { self.new ≡ after_number self.old (text_of text.now) }
        ensures bound { OnGrid result }
    {
        let number = on_grid(text, self.scale);
        self.numbers = self
            .numbers
            .with(number_fault(number, self.numbers.count + 1));
        number_value(number)
    }

    /// The point of two, three or four numbers at the front of a text, and what follows it.
    pub(crate) fn next_point<'a>(&mut self, text: &'a [u8]) -> Option<(Point, &'a [u8])>
        requires room { HasRoom self.old text.now }
        ensures read { MatchOption result (wide_point_at (symbols text.now) ≡ None) (λ r.
            IsRead wide_point_at text.now r.1.now (λ p. (r.0 ≡ point_or_zero self.old.scale p) × (self.new ≡ after_point self.old p))) }
        ensures room { IfSome result (λ r. HasRoom self.new r.1.now) }
        ensures shorter { IfSome result (λ r. length r.1.now < length text.now) }
    {
        let (x, rest) = next_number(text)?;
        let (y, rest) = next_number(rest)?;
        let point = Point::new(self.value(&x), self.value(&y))?;
        match behind_further(rest) {
            None => Some((point, rest)),
            Some(behind) => {
                self.is_wide = true;
                Some((point, behind))
            }
        }
    }

    /// Keeps the values of a ring that has been read.
    pub(crate) fn keep(&mut self, ring: Vec<Point>) -> Result<(), AllocError>
        requires rings { self.old.rings.count < 2 ^ 28 }
        requires room { length (all_rings self.old.built) ≤ self.old.rings.count }
        requires started { 0 < length self.old.built }
        ensures ok { OnOk result (self.new ≡ with_values self.old ring.items) }
    {
        let number = self.rings.count + 1;
        let fault = ring_fault(&ring, number);
        self.rings = self.rings.with(fault);
        match fault {
            None => self.built.add(ring),
            Some(_) => Ok(()),
        }
    }
}
