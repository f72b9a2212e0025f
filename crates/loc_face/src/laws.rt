//! What the course of a face is.

ghost use Rattle.loc_spec_text.specs.Bytes.{Text};
ghost use Rattle.loc_course.specs.Sentences.{IsPlain};
ghost use Rattle.loc_maps.specs.MapCourses.{LayerFile};
ghost use Rattle.loc_face.specs.FaceCourses.{face_course};

/// A face is written at once, and no file is made. The call does nothing: its contract is the law.
pub fn face_law()
    ensures plain { (file : LayerFile) (point : Text) → IsPlain (face_course file point) }
{}
