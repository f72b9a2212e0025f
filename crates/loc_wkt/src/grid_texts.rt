// Grid values in print: a minus where the value is negative, the whole part, and behind a point as many digits as the scale says.

ghost use Rattle.std.specs.Prelude.{◌≡◌, ◌<◌, ◌≤◌, ◌+◌, ◌-◌, pos, int_lt, length, drop};
ghost use Rattle.loc_io.specs.Streams.{TakesAll};
ghost use Rattle.loc_spec_text.specs.Points.{fraction_text, grid_text, padded_digits};

use itoa::write_digits;
use loc_io::{Sink, WriteFault, write_all};

/// Room for a minus, 19 digits, a point and 15 digits.
const ROOM: usize = 40;

/// Whether a value is below zero.
fn is_below_zero(value: i64) -> bool
    ensures { result ≡ int_lt value (pos 0) }
{
    value < 0
}

/// Puts so many digits of a number at the end of a room, zeros in front.
fn put_padded(room: &mut [u8], digits: u8, number: u64)
    requires { digits ≤ length room.old }
    ensures { drop (length room.old - digits) room.new ≡ padded_digits digits number }
{
    let mut left = number;
    for place in 0..digits as usize {
        let at = room.len() - 1 - place;
        room[at] = b'0' + (left % 10) as u8;
        left /= 10;
    }
}

/// Puts a point and so many digits of a number at the end of a room, or nothing where there are to be none, and says where they begin.
fn put_fraction(room: &mut [u8], scale: u8, number: u64) -> usize
    requires { scale < length room.old }
    ensures within { result ≤ length room.old }
    ensures size { length room.old ≤ result + scale + 1 }
    ensures text { drop result room.new ≡ fraction_text scale number }
{
    if scale == 0 {
        return room.len();
    }
    put_padded(room, scale, number);
    let point = room.len() - 1 - scale as usize;
    room[point] = b'.';
    point
}

/// Puts a grid value at the end of a room, and says where it begins.
pub fn put_grid(room: &mut [u8], value: i64, scale: u8) -> usize
    requires room { 40 ≤ length room.old }
    requires scale { scale ≤ 15 }
    ensures within { result ≤ length room.old }
    ensures text { drop result room.new ≡ grid_text scale value }
{
    let magnitude = value.unsigned_abs();
    let unit = 10u64.pow(scale as u32);
    let end = put_fraction(room, scale, magnitude % unit);
    let start = write_digits(magnitude / unit, room, end);
    if !is_below_zero(value) {
        return start;
    }
    let sign = start - 1;
    room[sign] = b'-';
    sign
}

/// Writes a grid value at a scale of at most 15. It takes no memory.
pub fn print_grid<O: Sink>(value: i64, scale: u8, sink: &mut O) -> Result<(), WriteFault>
    requires { scale ≤ 15 }
    ensures { TakesAll (grid_text scale value) (O.meaning sink.old) (O.meaning sink.new) result }
{
    let mut room = [b'0'; ROOM];
    let start = put_grid(&mut room, value, scale);
    write_all(sink, &room[start..])
}
