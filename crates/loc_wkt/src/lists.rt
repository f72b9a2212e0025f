// The readers of rings, polygons and lists of polygons, which keep the values as they go.

ghost use Rattle.std.specs.Prelude.{◌≡◌, ◌++◌, ◌<◌, [], ◌∷◌, map, length, IfOk, IfErr};
ghost use Rattle.std.specs.List.{fold};
ghost use Rattle.loc_spec_text.specs.Geometry.{symbols};
ghost use Rattle.loc_spec_text.specs.Reader.{list_at, wide_point_at};
ghost use Rattle.loc_wkt.specs.Lists.{IsRead, IsUnread, listed_at, wide_polygon_at, wide_ring_at};
ghost use Rattle.loc_wkt.specs.Passes.{HasRoom, after_point, after_polygon, after_ring, point_or_zero};

use crate::marks::{behind_empty, behind_open, goes_on};
use crate::values::Values;
use loc_geom::Point;
use loc_spec_text::TextFault;
use std::alloc::Global;

/// Room for the points of the ring whose list begins there, exact where that is right: one more than its commas, of which there is at
/// most one in four bytes.
fn most_points(text: &[u8]) -> usize {
    let mut commas = 0;
    for (i, b) in text.iter().enumerate() {
        match b {
            b')' => return commas.min(i / 4) + 1,
            b',' => commas += 1,
            _ => {}
        }
    }
    commas.min(text.len() / 4) + 1
}

impl Values {
    /// The points of a list behind its open mark, and what follows its close mark.
    fn points<'a>(
        &mut self,
        alloc: Global,
        text: &'a [u8],
    ) -> Result<(Vec<Point>, &'a [u8]), TextFault>
        requires room { HasRoom self.old text.now }
        ensures ok { IfOk result (λ r. IsRead (listed_at wide_point_at) text.now r.1.now (λ points.
            (r.0.items ≡ map (point_or_zero self.old.scale) points) × (self.new ≡ fold after_point self.old points))) }
        ensures err { IfErr result (λ fault. IsUnread fault (listed_at wide_point_at (symbols text.now))) }
        ensures room { IfOk result (λ r. HasRoom self.new r.1.now) }
        ensures shorter { IfOk result (λ r. length r.1.now < length text.now) }
    {
        let Ok(mut points) = Vec::with_capacity(alloc, most_points(text)) else {
            return Err(TextFault::NoMemory);
        };
        let mut rest = text;
        loop {
            let Some((point, more)) = self.next_point(rest) else {
                return Err(TextFault::Syntax);
            };
            if points.push(point).is_err() {
                return Err(TextFault::NoMemory);
            }
            let Some((goes_on, behind)) = goes_on(more) else {
                return Err(TextFault::Syntax);
            };
            if !goes_on {
                return Ok((points, behind));
            }
            rest = behind;
        }
    }

    /// What follows a ring at the front of a text.
    fn behind_ring<'a>(&mut self, alloc: Global, text: &'a [u8]) -> Result<&'a [u8], TextFault>
        requires room { HasRoom self.old text.now }
        requires started { 0 < length self.old.built }
        ensures ok { IfOk result (λ rest. IsRead wide_ring_at text.now rest.now (λ ring. self.new ≡ after_ring self.old ring)) }
        ensures err { IfErr result (λ fault. IsUnread fault (wide_ring_at (symbols text.now))) }
        ensures room { IfOk result (λ rest. HasRoom self.new rest.now) }
        ensures started { IfOk result (λ rest. 0 < length self.new.built) }
        ensures shorter { IfOk result (λ rest. length rest.now < length text.now) }
    {
        let Some(inside) = behind_open(text) else {
            return Err(TextFault::Syntax);
        };
        let (points, rest) = self.points(alloc, inside)?;
        if self.keep(points).is_err() {
            return Err(TextFault::NoMemory);
        }
        Ok(rest)
    }

    /// What follows the rings of a list behind its open mark.
    fn behind_rings<'a>(&mut self, alloc: Global, text: &'a [u8]) -> Result<&'a [u8], TextFault>
        requires room { HasRoom self.old text.now }
        requires started { 0 < length self.old.built }
        ensures ok { IfOk result (λ rest. IsRead (listed_at wide_ring_at) text.now rest.now (λ rings. self.new ≡ fold after_ring self.old rings)) }
        ensures err { IfErr result (λ fault. IsUnread fault (listed_at wide_ring_at (symbols text.now))) }
        ensures room { IfOk result (λ rest. HasRoom self.new rest.now) }
        ensures shorter { IfOk result (λ rest. length rest.now < length text.now) }
    {
        let mut rest = text;
        loop {
            let more = self.behind_ring(alloc, rest)?;
            let Some((goes_on, behind)) = goes_on(more) else {
                return Err(TextFault::Syntax);
            };
            if !goes_on {
                return Ok(behind);
            }
            rest = behind;
        }
    }

    /// What follows a polygon at the front of a text: EMPTY, or a list of rings.
    pub(crate) fn behind_polygon<'a>(
        &mut self,
        alloc: Global,
        text: &'a [u8],
    ) -> Result<&'a [u8], TextFault>
        requires room { HasRoom self.old text.now }
        ensures ok { IfOk result (λ rest. IsRead wide_polygon_at text.now rest.now (λ polygon. self.new ≡ after_polygon self.old polygon)) }
        ensures err { IfErr result (λ fault. IsUnread fault (wide_polygon_at (symbols text.now))) }
        ensures room { IfOk result (λ rest. HasRoom self.new rest.now) }
        ensures shorter { IfOk result (λ rest. length rest.now < length text.now) }
    {
        if self.built.start_polygon().is_err() {
            return Err(TextFault::NoMemory);
        }
        if let Some(inside) = behind_open(text) {
            return self.behind_rings(alloc, inside);
        }
        match behind_empty(text) {
            Some(rest) => Ok(rest),
            None => Err(TextFault::Syntax),
        }
    }

    /// What follows EMPTY or a list of polygons at the front of a text.
    pub(crate) fn behind_polygon_list<'a>(
        &mut self,
        alloc: Global,
        text: &'a [u8],
    ) -> Result<&'a [u8], TextFault>
        requires room { HasRoom self.old text.now }
        ensures ok { IfOk result (λ rest. IsRead (list_at wide_polygon_at) text.now rest.now (λ polygons. self.new ≡ fold after_polygon self.old polygons)) }
        ensures err { IfErr result (λ fault. IsUnread fault (list_at wide_polygon_at (symbols text.now))) }
    {
        if let Some(inside) = behind_open(text) {
            return self.behind_polygons(alloc, inside);
        }
        match behind_empty(text) {
            Some(rest) => Ok(rest),
            None => Err(TextFault::Syntax),
        }
    }

    /// What follows the polygons of a list behind its open mark.
    fn behind_polygons<'a>(&mut self, alloc: Global, text: &'a [u8]) -> Result<&'a [u8], TextFault>
        requires room { HasRoom self.old text.now }
        ensures ok { IfOk result (λ rest. IsRead (listed_at wide_polygon_at) text.now rest.now (λ polygons. self.new ≡ fold after_polygon self.old polygons)) }
        ensures err { IfErr result (λ fault. IsUnread fault (listed_at wide_polygon_at (symbols text.now))) }
    {
        let mut rest = text;
        loop {
            let more = self.behind_polygon(alloc, rest)?;
            let Some((goes_on, behind)) = goes_on(more) else {
                return Err(TextFault::Syntax);
            };
            if !goes_on {
                return Ok(behind);
            }
            rest = behind;
        }
    }
}
