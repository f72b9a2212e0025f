// The part of the marks.

ghost use Rattle.std.specs.Prelude.{◌≡◌, IfOk, IfErr};
ghost use Rattle.loc_spec_index.specs.IndexFile.{follows, mark_row_before, mark_row, rows_of};
ghost use Rattle.loc_file.specs.Readings.{IsRead, IsRowStop, AreRows, IsRowsStop};

use crate::cursor::Cursor;
use crate::edges::is_before;
use crate::rows::keep;
use loc_spec_index::{IndexFault, Part};
use loc_spec_plane::Mark;
use std::alloc::Global;

// Whether a mark comes behind the one before it, if there is one.
fn follows(last: Option<(u32, Mark)>, mark: (u32, Mark)) -> bool
    ensures { result ≡ follows mark_row_before last mark }
{
    match last {
        None => true,
        Some(other) => is_before((other.0, other.1.feature), (mark.0, mark.1.feature)),
    }
}

// A mark behind another.
fn next_mark(
    cursor: &mut Cursor<'_>,
    edges: u32,
    features: u32,
    row: u32,
    last: Option<(u32, Mark)>,
) -> Result<(u32, Mark), IndexFault>
    ensures ok { IfOk result (λ m. IsRead (mark_row edges features row last m) cursor.old cursor.new) }
    ensures err { IfErr result (IsRowStop (mark_row edges features row last) cursor.old) }
{
    let (edge, feature) = cursor.two_numbers(edges, features)?;
    let odd = cursor.flag()?;
    let mark = (edge, Mark { feature, odd });
    cursor.in_order(follows(last, mark), Part::Marks, row)?;
    Ok(mark)
}

// The marks, which rise.
pub(crate) fn read_marks(
    alloc: Global,
    cursor: &mut Cursor<'_>,
    edges: u32,
    features: u32,
    count: u32,
) -> Result<Vec<(u32, Mark)>, IndexFault>
    ensures ok { IfOk result (λ marks. AreRows (rows_of (mark_row edges features)) count marks.items cursor.old cursor.new) }
    ensures err { IfErr result (IsRowsStop (rows_of (mark_row edges features)) count cursor.old) }
{
    let mut marks = Vec::new(alloc);
    let mut last = None;
    for row in 0..count {
        let mark = next_mark(cursor, edges, features, row, last)?;
        keep(&mut marks, mark)?;
        last = Some(mark);
    }
    Ok(marks)
}
