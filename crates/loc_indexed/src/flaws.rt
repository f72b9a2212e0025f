//! The lines that say what is wrong with an index.

ghost use Rattle.std.specs.Prelude.{◌≡◌, ◌≤◌, ◌++◌, length};
ghost use Rattle.std.specs.Fmt.{decimal};
ghost use Rattle.loc_spec_text.specs.Points.{ended};
ghost use Rattle.loc_maps.specs.LineTexts.{meeting_text};
ghost use Rattle.loc_course.specs.Lines.{line_text, part_text};
ghost use Rattle.loc_course.specs.Stops.{stopped};
ghost use Rattle.loc_indexed.specs.FlawTexts.{clash_text, flaw_stop};

use loc_course::{Line, Part, Stop};
use loc_geom::Meeting;
use loc_verify::VerifyFault;

// A number between words.
fn numbered_line(before: &[u8], number: u32, after: &[u8]) -> Line
    requires before { length before.now ≤ 24 }
    requires after { length after.now ≤ 24 }
    ensures { line_text result ≡ ended (before.now ++ decimal number ++ after.now) }
{
    Line {
        parts: [
            Part::of(before),
            Part::Number(number),
            Part::of(after),
            Part::None,
            Part::None,
            Part::None,
        ],
    }
}

// Two numbers, each behind words.
fn twice_numbered_line(before: &[u8], first: u32, between: &[u8], second: u32) -> Line
    requires before { length before.now ≤ 24 }
    requires between { length between.now ≤ 24 }
    ensures { line_text result ≡ ended (before.now ++ decimal first ++ between.now ++ decimal second) }
{
    Line {
        parts: [
            Part::of(before),
            Part::Number(first),
            Part::of(between),
            Part::Number(second),
            Part::None,
            Part::None,
        ],
    }
}

// How two edges conflict.
fn meeting_part(meeting: Meeting) -> Part
    ensures { part_text result ≡ meeting_text meeting }
{
    match meeting {
        Meeting::Apart => Part::of(b" apart"),
        Meeting::Touch => Part::of(b" touch"),
        Meeting::Cross => Part::of(b" cross"),
    }
}

// Two edges that conflict, and how.
fn clash_line(a: u32, b: u32, meeting: Meeting) -> Line
    ensures { line_text result ≡ ended (clash_text a b meeting) }
{
    Line {
        parts: [
            Part::of(b"verify: edges "),
            Part::Number(a),
            Part::of(b" and "),
            Part::Number(b),
            meeting_part(meeting),
            Part::None,
        ],
    }
}

/// Why a command stops where a judge found a fault.
pub(crate) fn flaw_stop_of(fault: VerifyFault) -> Stop
    ensures { stopped result ≡ flaw_stop fault }
{
    match fault {
        VerifyFault::Lone { corner } => {
            Stop::Refused(numbered_line(b"verify: corner ", corner, b" lone"))
        }
        VerifyFault::Bare { edge } => {
            Stop::Refused(numbered_line(b"verify: edge ", edge, b" bare"))
        }
        VerifyFault::Uneven { corner, feature } => Stop::Refused(twice_numbered_line(
            b"verify: feature ",
            feature,
            b" uneven at corner ",
            corner,
        )),
        VerifyFault::Conflict { a, b, meeting } => Stop::Refused(clash_line(a, b, meeting)),
        VerifyFault::WrongFloor { corner } => {
            Stop::Refused(numbered_line(b"verify: floor of corner ", corner, b""))
        }
        VerifyFault::WrongCover { edge } => {
            Stop::Refused(numbered_line(b"verify: cover of edge ", edge, b""))
        }
        VerifyFault::SpareCover { list } => {
            Stop::Refused(numbered_line(b"verify: list ", list, b" spare"))
        }
        VerifyFault::WrongSource { edge } => {
            Stop::Refused(numbered_line(b"verify: source of edge ", edge, b""))
        }
        VerifyFault::Deep { version } => {
            Stop::Refused(numbered_line(b"verify: version ", version, b" deep"))
        }
        VerifyFault::WrongList { version, position } => Stop::Refused(twice_numbered_line(
            b"verify: version ",
            version,
            b" wrong at ",
            position,
        )),
        VerifyFault::NoMemory => Stop::NoMemory,
    }
}
