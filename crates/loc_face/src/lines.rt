//! The lines that say why a point has no face.

ghost use Rattle.std.specs.Prelude.{◌≡◌, ◌≤◌, length};
ghost use Rattle.loc_course.specs.Lines.{line_text};
ghost use Rattle.loc_face.specs.FaceCourses.{line_at};

use loc_course::{Line, Part};

/// A word and a number.
pub(crate) fn numbered_line(word: &[u8], number: u32) -> Line
    requires { length word.now ≤ 24 }
    ensures { line_text result ≡ line_at word.now number }
{
    Line {
        parts: [
            Part::of(word),
            Part::Number(number),
            Part::None,
            Part::None,
            Part::None,
            Part::None,
        ],
    }
}
