//! What the course of the groups of a layer is.

ghost use Rattle.loc_course.specs.Sentences.{IsPlain};
ghost use Rattle.loc_maps.specs.MapCourses.{LayerFile};
ghost use Rattle.loc_groups.specs.GroupCourses.{dissolve_course};

/// The groups are written at once, and no file is made. The call does nothing: its contract is the law.
pub fn dissolve_law()
    ensures plain { (file : LayerFile) → IsPlain (dissolve_course file) }
{}
