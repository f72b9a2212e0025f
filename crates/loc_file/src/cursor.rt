// The bytes of a file that are still to be read, and the readers of single fields.

ghost use Rattle.std.specs.Prelude.{◌≡◌, ℕ, ℤ, ◌<◌, ◌≤◌, ◌^◌, List, [], ◌∷◌, IfOk, IfErr, length};
ghost use Rattle.std.specs.Int.{w8, w32};
ghost use Rattle.loc_spec_plane.specs.Points.{OnGrid};
ghost use Rattle.loc_spec_index.specs.IndexFile.{bit, number, coordinate, text, order};
ghost use Rattle.loc_file.specs.Readings.{Left, IsTaken, IsShort, IsRead, IsWrong, IsRowStop, two, three};

use byteorder::{BigEndian, ByteOrder};
use loc_spec_index::{IndexFault, Part};
use std::marker::Model;

// How far a coordinate is from 0 at most.
const LIMIT: u64 = 1_000_000_000_000_000_000;

// The bytes that are left, and the offset at which they begin.
#[derive(Drop)]
pub(crate) struct Cursor<'a> {
    rest: &'a [u8],
    offset: u64,
}

impl<'a> Model for Cursor<'a> {
    ghost use Rattle.std.specs.Prelude.{◌+◌, ◌≤◌, ◌^◌, length};
    ghost use Rattle.loc_file.specs.Readings.{Left};

    ghost Value = { Left };

    ghost view = { λ c. record { rest = c.rest.now; offset = c.offset } };

    ghost invariant = { λ c. c.offset + length c.rest.now ≤ 2 ^ 31 };
}

impl<'a> Cursor<'a> {
    // All bytes are left.
    pub(crate) fn new(bytes: &'a [u8]) -> Cursor<'a>
        requires { length bytes.now ≤ 2 ^ 31 }
        ensures rest { result.rest ≡ bytes.now }
        ensures offset { result.offset ≡ 0 }
    {
        Cursor {
            rest: bytes,
            offset: 0,
        }
    }

    // How many bytes are left.
    pub(crate) fn len(&self) -> u64
        ensures { result ≡ length self.now.rest }
    {
        self.rest.len() as u64
    }

    // Where they begin.
    pub(crate) fn offset(&self) -> u64
        ensures { result ≡ self.now.offset }
    {
        self.offset
    }

    // The next bytes, so many.
    pub(crate) fn take(&mut self, count: u8) -> Result<&'a [u8], IndexFault>
        ensures ok { IfOk result (λ held. IsTaken count held.now self.old self.new) }
        ensures err { IfErr result (IsShort count self.old) }
    {
        match self.rest.split_at_checked(count as usize) {
            None => Err(IndexFault::Short {
                need: self.offset + count as u64,
            }),
            Some((held, rest)) => {
                self.rest = rest;
                self.offset += count as u64;
                Ok(held)
            }
        }
    }

    // A text of so many bytes.
    pub(crate) fn text(&mut self, count: u8) -> Result<&'a [u8], IndexFault>
        ensures as_many { IfOk result (λ held. length held.now ≡ count) }
        ensures ok { IfOk result (λ held. IsRead (text held.now ∷ []) self.old self.new) }
        ensures err { IfErr result (λ f. (held : List ℕ) → length held ≡ count → IsWrong (text held) self.old f) }
    {
        self.take(count)
    }

    // A number of four bytes that is below a bound.
    pub(crate) fn number(&mut self, bound: u32) -> Result<u32, IndexFault>
        ensures ok { IfOk result (λ n. IsRead (number w32 bound n ∷ []) self.old self.new) }
        ensures below { IfOk result (λ n. n < bound) }
        ensures err { IfErr result (λ f. (n : ℕ) → IsWrong (number w32 bound n) self.old f) }
    {
        let offset = self.offset();
        let held = self.take(4)?;
        let _first = held[0]; // tells that bytes are below 256
        let value = BigEndian::read_u32(held);
        if value >= bound {
            return Err(IndexFault::Field {
                offset,
                value: value as u64,
                bound: bound as u64,
            });
        }
        Ok(value)
    }

    // Two numbers of four bytes, each below its bound.
    pub(crate) fn two_numbers(&mut self, first: u32, second: u32) -> Result<(u32, u32), IndexFault>
        ensures ok { IfOk result (λ ns. IsRead (two first second ns) self.old self.new) }
        ensures err { IfErr result (IsRowStop (two first second) self.old) }
    {
        let former = self.number(first)?;
        let latter = self.number(second)?;
        Ok((former, latter))
    }

    // Three numbers of four bytes, each below its bound.
    pub(crate) fn three_numbers(
        &mut self,
        first: u32,
        second: u32,
        third: u32,
    ) -> Result<(u32, u32, u32), IndexFault>
        ensures ok { IfOk result (λ ns. IsRead (three first second third ns) self.old self.new) }
        ensures err { IfErr result (IsRowStop (three first second third) self.old) }
    {
        let (former, latter) = self.two_numbers(first, second)?;
        let last = self.number(third)?;
        Ok((former, latter, last))
    }

    // A number of one byte that is below a bound.
    pub(crate) fn byte(&mut self, bound: u8) -> Result<u8, IndexFault>
        ensures ok { IfOk result (λ n. IsRead (number w8 bound n ∷ []) self.old self.new) }
        ensures below { IfOk result (λ n. n < bound) }
        ensures err { IfErr result (λ f. (n : ℕ) → IsWrong (number w8 bound n) self.old f) }
    {
        let offset = self.offset();
        let held = self.take(1)?;
        let value = held[0];
        if value >= bound {
            return Err(IndexFault::Field {
                offset,
                value: value as u64,
                bound: bound as u64,
            });
        }
        Ok(value)
    }

    // A byte that is 0 or 1.
    pub(crate) fn flag(&mut self) -> Result<bool, IndexFault>
        ensures ok { IfOk result (λ b. IsRead (number w8 2 (bit b) ∷ []) self.old self.new) }
        ensures err { IfErr result (λ f. (n : ℕ) → IsWrong (number w8 2 n) self.old f) }
    {
        Ok(self.byte(2)? == 1)
    }

    // A coordinate of the grid.
    pub(crate) fn coordinate(&mut self) -> Result<i64, IndexFault>
        ensures ok { IfOk result (λ x. IsRead (coordinate x ∷ []) self.old self.new) }
        ensures on_grid { IfOk result OnGrid }
        ensures err { IfErr result (λ f. (x : ℤ) → IsWrong (coordinate x) self.old f) }
    {
        let offset = self.offset();
        let held = self.take(8)?;
        let _first = held[0]; // tells that bytes are below 256
        let value = BigEndian::read_i64(held);
        let size = value.unsigned_abs();
        if size > LIMIT {
            return Err(IndexFault::Field {
                offset,
                value: size,
                bound: LIMIT + 1,
            });
        }
        Ok(value)
    }

    // The order of a row, which takes no bytes.
    pub(crate) fn in_order(&self, holds: bool, part: Part, row: u32) -> Result<(), IndexFault>
        ensures ok { IfOk result (λ _. IsRead (order part row holds ∷ []) self.now self.now) }
        ensures err { IfErr result (IsWrong (order part row holds) self.now) }
    {
        if holds {
            Ok(())
        } else {
            Err(IndexFault::NotSorted { part, row })
        }
    }
}
