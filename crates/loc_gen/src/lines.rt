// A feature in print, on a line of fixed room.

ghost use Rattle.std.specs.Prelude.{◌≡◌, ◌+◌, ◌++◌, ◌≤◌, length};
ghost use Rattle.std.specs.Fmt.{decimal};
ghost use Rattle.loc_io.specs.Streams.{TakesAll};
ghost use Rattle.loc_gen.specs.Layers.{corner_text, feature_text};

use crate::features::Rectangle;
use arrayvec::ArrayVec;
use itoa::Buffer;
use loc_io::{Sink, WriteFault, write_all};

// Room for five corners of two numbers of 20 digits, and for the words and marks around them.
type Line = ArrayVec<u8, 256>;

// A text behind the others, for which there is room.
fn put(line: &mut Line, text: &[u8])
    requires { length line.old.items + length text.now ≤ 256 }
    ensures text { line.new.items ≡ line.old.items ++ text.now }
    ensures size { length line.new.items ≡ length line.old.items + length text.now }
{
    match line.try_extend_from_slice(text) {
        Ok(()) => {}
        Err(_) => unreachable!(),
    }
}

// A number in decimal.
fn put_number(line: &mut Line, number: u64)
    requires { length line.old.items + 20 ≤ 256 }
    ensures text { line.new.items ≡ line.old.items ++ decimal number }
    ensures size { length line.new.items ≤ length line.old.items + 20 }
{
    let mut buffer = Buffer::new();
    put(line, buffer.format(number).as_bytes());
}

// A corner: x, a space, y.
fn put_corner(line: &mut Line, x: u64, y: u64)
    requires { length line.old.items + 41 ≤ 256 }
    ensures text { line.new.items ≡ line.old.items ++ corner_text x y }
    ensures size { length line.new.items ≤ length line.old.items + 41 }
{
    put_number(line, x);
    put(line, b" ");
    put_number(line, y);
}

// The line of a feature.
fn line_of(feature: Rectangle) -> Line
    ensures { result.items ≡ feature_text feature }
{
    let mut line = Line::new();
    put(&mut line, b"POLYGON ((");
    put_corner(&mut line, feature.left, feature.low);
    put(&mut line, b", ");
    put_corner(&mut line, feature.right, feature.low);
    put(&mut line, b", ");
    put_corner(&mut line, feature.right, feature.high);
    put(&mut line, b", ");
    put_corner(&mut line, feature.left, feature.high);
    put(&mut line, b", ");
    put_corner(&mut line, feature.left, feature.low);
    put(&mut line, b"))\n");
    line
}

// Writes the line of a feature.
pub(crate) fn write_feature<O: Sink>(sink: &mut O, feature: Rectangle) -> Result<(), WriteFault>
    ensures { TakesAll (feature_text feature) (O.meaning sink.old) (O.meaning sink.new) result }
{
    let line = line_of(feature);
    write_all(sink, line.as_slice())
}
