//! What the course of the edges on spans is.

ghost use Rattle.loc_spec_text.specs.Bytes.{Text};
ghost use Rattle.loc_course.specs.Sentences.{IsPlain};
ghost use Rattle.loc_maps.specs.MapCourses.{LayerFile};
ghost use Rattle.loc_reach.specs.SpanCourses.{stab_course};

/// The edges on spans are written at once, and no file is made. The call does nothing: its contract is the law.
pub fn stab_law()
    ensures plain { (file : LayerFile) (spans : Text) → IsPlain (stab_course file spans) }
{}
