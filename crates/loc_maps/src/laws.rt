//! What the course of a check is.

ghost use Rattle.loc_course.specs.Sentences.{IsPlain, SearchesNothing};
ghost use Rattle.loc_maps.specs.MapCourses.{LayerFile, check_course};

/// A check writes at once, makes no file and counts no steps. The call does nothing: its contract is the law.
pub fn check_law()
    ensures plain { (file : LayerFile) → IsPlain (check_course file) }
    ensures searches_nothing { (file : LayerFile) → SearchesNothing (check_course file) }
{}
