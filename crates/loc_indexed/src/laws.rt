//! What commands on index files come to.

ghost use Rattle.std.specs.Prelude.{◌≡◌, ◌≢◌, ◌⊎◌, ◌<◌, ◌≤◌, Err, List, Ok, codes, false, length, map, ℕ};
ghost use Rattle.loc_spec_text.specs.Bytes.{Text};
ghost use Rattle.loc_io.specs.Meaning.{Told, holds};
ghost use Rattle.loc_io.specs.Streams.{Stream};
ghost use Rattle.loc_spec_asked.specs.declared.Index.TheVariants as by;
ghost use Rattle.loc_spec_text.specs.Points.{ended};
ghost use Rattle.loc_spec_index.specs.declared.IndexFault.{IndexFault as Fault};
ghost use Rattle.loc_spec_index.specs.Content.{Content};
ghost use Rattle.loc_indexed.specs.IndexBytes.{IsIndexFile};
ghost use Rattle.loc_spec_index.specs.TrueIndex.{IsIndexOf, IsTrueIndex};
ghost use Rattle.loc_laws_index.specs.IndexReading.{AreBytes, reading};
ghost use Rattle.loc_rings.specs.Values.{Feature, rings_of};
ghost use Rattle.loc_answering.specs.ByLine.{deep_text};
ghost use Rattle.loc_course.specs.Moments.{Moment};
ghost use Rattle.loc_course.specs.Outcomes.{exactly, outcome, refusal};
ghost use Rattle.loc_course.specs.Sentences.{AtOnce, Ended, IsPlain, MakesNone, MayMake, MayRefuseBehind, SearchesNothing, Sentences};
ghost use Rattle.loc_query.specs.QueryCourses.{points_course};
ghost use Rattle.loc_maps.specs.MapCourses.{LayerFile};
ghost use Rattle.loc_indexed.specs.Building.{build_course};
ghost use Rattle.loc_indexed.specs.Builds.{Builds, Built};
ghost use Rattle.loc_indexed.specs.IndexedCourses.{ask_course, asked_course};
ghost use Rattle.loc_spec_text.specs.Limits.{most_index};
ghost use Rattle.loc_indexed.specs.IndexTexts.{index_fault_text};
ghost use Rattle.loc_indexed.specs.Marked.{marked_course};
ghost use Rattle.loc_indexed.specs.Verifies.{Judged, Verifies};
ghost use Rattle.loc_indexed.specs.Verifying.{verify_course};

/// An index file that is too long or at fault is refused by its line, and any other is asked: a true one as its marks say, and a true one of a
/// layer as a query of the layer with the tree. No file is made. The call does nothing: its contract is the law.
pub fn ask_law()
    ensures too_long { (told : Text → Told) (index points bytes : Text) → told index ≡ holds bytes
        → most_index < length bytes → outcome told (ask_course index points)
        ≡ refusal (exactly (ended (codes "index: too long"))) }
    ensures at_fault { (told : Text → Told) (index points bytes : Text) (fault : Fault) → told index ≡ holds bytes
        → length bytes ≤ most_index → reading bytes ≡ Err fault
        → outcome told (ask_course index points) ≡ refusal (exactly (ended (index_fault_text fault))) }
    ensures asked { (told : Text → Told) (index points bytes : Text) (c : Content) → told index ≡ holds bytes
        → length bytes ≤ most_index → reading bytes ≡ Ok c
        → outcome told (ask_course index points) ≡ outcome told (asked_course points c) }
    ensures reads { (bytes : Text) (c : Content) → AreBytes bytes → IsIndexFile c bytes → reading bytes ≡ Ok c }
    ensures of_true { (points bytes : Text) (c : Content) → IsIndexFile c bytes → IsTrueIndex c
        → asked_course points c ≡ marked_course points c }
    ensures of_layer { (points : Text) (v scale : ℕ) (layer : List Feature) (c : Content)
        → IsIndexOf v scale (map (λ (f : Feature). f.id) layer) (map rings_of layer) c
        → marked_course points c ≡ points_course by.Tree false scale points layer }
    ensures makes_none { (index points : Text) → MakesNone (ask_course index points) }
    ensures refuses_behind { (index points line : Text) → MayRefuseBehind (ask_course index points) line
        → (line ≡ ended (codes "points: too long")) ⊎ ((version : ℕ) × (line ≡ deep_text version)) }
{}

/// What making the index file of a layer leaves, from the course that was followed and from what was built. No file but the index is made, nothing
/// is written on an output, and no steps are counted. The call does nothing: its contract is the law.
pub fn build_law()
    ensures builds { (file : LayerFile) (index : Text) (old new : Moment) (n n' : Stream) (status : ℕ)
        → Ended (build_course file index) old new n n' status → Built file index old.shelf new.shelf status
        → Builds file index old new n n' status }
    ensures at_once { (file : LayerFile) (index : Text) → AtOnce (build_course file index) }
    ensures makes_one { (file : LayerFile) (index name : Text) → name ≢ index → MayMake (build_course file index) name
        → ⊥ }
    ensures searches_nothing { (file : LayerFile) (index : Text) → SearchesNothing (build_course file index) }
{}

/// What judging an index file tells, from the course that was followed and from what was judged. The course writes at once, makes no file and
/// searches nothing. The call does nothing: its contract is the law.
pub fn verify_law()
    ensures verifies { (index : Text) (old new : Moment) (n n' : Stream) (status : ℕ)
        → Sentences (verify_course index) old new n n' status → Judged (old.shelf.told index) status
        → Verifies index old new n n' status }
    ensures plain { (index : Text) → IsPlain (verify_course index) }
    ensures searches_nothing { (index : Text) → SearchesNothing (verify_course index) }
{}
