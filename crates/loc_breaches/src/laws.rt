//! What the course of the judgement of a layer's features is.

ghost use Rattle.loc_course.specs.Sentences.{IsPlain};
ghost use Rattle.loc_maps.specs.MapCourses.{LayerFile};
ghost use Rattle.loc_breaches.specs.BreachCourses.{valid_course};

/// The lines are written at once, and no file is made. The call does nothing: its contract is the law.
pub fn valid_law()
    ensures plain { (file : LayerFile) → IsPlain (valid_course file) }
{}
