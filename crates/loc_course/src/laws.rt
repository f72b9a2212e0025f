//! What holds of every command that follows a course.

ghost use Rattle.std.specs.Prelude.{ℕ};
ghost use Rattle.loc_io.specs.Streams.{Stream};
ghost use Rattle.loc_course.specs.Courses.{Course};
ghost use Rattle.loc_course.specs.Moments.{Moment};
ghost use Rattle.loc_course.specs.Sentences.{Ended, Sentences};

/// The sentences, for every course and every command that follows it. The call does nothing: its contract is the law.
pub fn course_law()
    ensures { (c : Course) (old new : Moment) (n n' : Stream) (status : ℕ) → Ended c old new n n' status
        → Sentences c old new n n' status }
{}
