//! The line of a size that is past the limit of its kind.

ghost use Rattle.std.specs.Prelude.{◌≡◌, ◌≤◌, ◌^◌};
ghost use Rattle.std.specs.Fmt.{decimal};
ghost use Rattle.loc_spec_text.specs.Points.{ended};
ghost use Rattle.loc_course.specs.Lines.{line_text, part_text};
ghost use Rattle.loc_trial.specs.TrialCourses.{past_text};

use itoa::Buffer;
use loc_course::{Line, Part};

// A number of 64 bits.
fn number_part(number: u64) -> Part
    ensures { part_text result ≡ decimal number }
{
    let mut buffer = Buffer::new();
    Part::of(buffer.format(number).as_bytes())
}

/// A size is past a limit.
pub(crate) fn past_line(n: u64, limit: u64) -> Line
    ensures { line_text result ≡ ended (past_text n limit) }
{
    Line {
        parts: [
            Part::of(b"gen: "),
            number_part(n),
            Part::of(b" past "),
            number_part(limit),
            Part::None,
            Part::None,
        ],
    }
}
