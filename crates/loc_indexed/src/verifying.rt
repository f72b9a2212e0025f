//! An index file that is judged, from the bytes in to the bytes out.

ghost use Rattle.std.specs.Prelude.{◌≡◌, ◌++◌, IfOk, OnOk};
ghost use Rattle.std.specs.Fmt.{decimal};
ghost use Rattle.loc_spec_text.specs.Points.{ended};
ghost use Rattle.loc_spec_index.specs.TrueIndex.{IsTrueIndex};
ghost use Rattle.loc_laws_judge.specs.FirstFlaw.{first_flaw};
ghost use Rattle.loc_course.specs.Courses.{writes};
ghost use Rattle.loc_course.specs.Following.{Moment};
ghost use Rattle.loc_course.specs.Outcomes.{exactly};
ghost use Rattle.loc_course.specs.Runs.{RunsOnFilesAndOut, RunsOnOut};
ghost use Rattle.loc_course.specs.Sentences.{status_of};
ghost use Rattle.loc_course.specs.Stops.{GoesOn, end_of};
ghost use Rattle.loc_indexed.specs.FlawTexts.{index_text};
ghost use Rattle.loc_indexed.specs.Verifies.{Judged};
ghost use Rattle.loc_indexed.specs.Verifying.{judged_course, verify_course};

use crate::flaws::flaw_stop_of;
use crate::indexes::read_index_file;
use itoa::Buffer;
use loc_course::{Stop, write_out};
use loc_file::Held;
use loc_io::{Shelf, Sink};
use std::alloc::{AllocError, Global};

// Words and a number.
fn push_count(out: &mut Vec<u8>, words: &[u8], number: u32) -> Result<(), AllocError>
    ensures { OnOk result (out.new.items ≡ out.old.items ++ words.now ++ decimal number) }
{
    let mut buffer = Buffer::new();
    out.extend_from_slice(words)?;
    out.extend_from_slice(buffer.format(number).as_bytes())?;
    Ok(())
}

// The line of the counts of an index.
#[tactic(auto, unfolding(loc_spec_index::specs::Content::table_in))]
fn index_line(alloc: Global, held: &Held) -> Result<Vec<u8>, AllocError>
    ensures { IfOk result (λ line. line.items ≡ ended (index_text held.now.content)) }
{
    let mut line = Vec::new(alloc);
    push_count(&mut line, b"index of ", held.legend().features())?;
    push_count(&mut line, b" features, ", held.table().corner_count())?;
    push_count(&mut line, b" corners, ", held.table().edge_count())?;
    push_count(&mut line, b" edges, ", held.nodes())?;
    line.extend_from_slice(b" nodes\n")?;
    Ok(line)
}

// What was read is a true index, or it is refused by its first flaw.
fn judge_held(alloc: Global, held: &Held) -> Result<(), Stop>
    ensures goes_on { (m : Moment) → GoesOn (judged_course held.now.content (first_flaw held.now.content)) m
        (λ _. writes (exactly (ended (index_text held.now.content)))) m result }
    ensures is_true { OnOk result (IsTrueIndex held.now.content) }
{
    held.law();
    match loc_verify::verify(alloc, held) {
        Ok(()) => Ok(()),
        Err(fault) => Err(flaw_stop_of(fault)),
    }
}

// The counts of an index are written.
fn write_counts<O: Sink>(alloc: Global, held: &Held, out: &mut O) -> Result<(), Stop>
    ensures { RunsOnOut (writes (exactly (ended (index_text held.now.content)))) O.meaning out result }
{
    let line = index_line(alloc, held)?;
    write_out(out, &line)
}

// What was read is judged, and its counts are written where it is true.
fn tell<O: Sink>(alloc: Global, held: &Held, out: &mut O) -> Result<(), Stop>
    ensures follows { RunsOnOut (judged_course held.now.content (first_flaw held.now.content)) O.meaning out result }
    ensures is_true { OnOk result (IsTrueIndex held.now.content) }
{
    judge_held(alloc, held)?;
    write_counts(alloc, held, out)
}

/// Reads the index whole and judges it, and writes its counts where it is true. All memory is taken before the first byte on `out`.
pub fn verify<F: Shelf, O: Sink>(
    alloc: Global,
    index_name: &str,
    shelf: &mut F,
    out: &mut O,
) -> Result<(), Stop>
    ensures follows { RunsOnFilesAndOut (verify_course index_name.now) F.meaning shelf O.meaning out result }
    ensures judged { Judged ((F.meaning shelf.old).told index_name.now) (status_of (end_of result)) }
{
    let held = read_index_file(alloc, shelf, index_name)?;
    let outcome = tell(alloc, &held, out);
    drop(held);
    outcome
}
