//! What commands on an index file of either version come to.

ghost use Rattle.std.specs.Prelude.{◌≡◌, ◌≢◌, IfSome, IsTrue, ℕ, not};
ghost use Rattle.loc_spec_text.specs.Bytes.{Text};
ghost use Rattle.loc_io.specs.Meaning.{holds};
ghost use Rattle.loc_io.specs.Streams.{Stream};
ghost use Rattle.loc_spec_index.specs.Content.{Content};
ghost use Rattle.loc_spec_index.specs.IndexFile.{IsFileOf, bytes_of};
ghost use Rattle.loc_laws_index.specs.IndexReading.{AreBytes};
ghost use Rattle.loc_laws_judge.specs.FirstFlaw.{first_flaw};
ghost use Rattle.loc_course.specs.Moments.{Moment};
ghost use Rattle.loc_course.specs.Sentences.{AtOnce, Ended, IsPlain, MayMake, SearchesNothing, Sentences};
ghost use Rattle.loc_indexed.specs.FlawTexts.{is_clash};
ghost use Rattle.loc_indexed.specs.IndexBytes.{IsIndexFile};
ghost use Rattle.loc_indexed.specs.IndexedCourses.{ask_course};
ghost use Rattle.loc_indexed.specs.Verifying.{verify_course};
ghost use Rattle.loc_upgrade.specs.Alike.{GaveSame, NotedSame, RanWell, Run};
ghost use Rattle.loc_upgrade.specs.TellsEdges.{Listed, TellsEdges};
ghost use Rattle.loc_upgrade.specs.UpgradeCourses.{edges_course, upgrade_course};
ghost use Rattle.loc_upgrade.specs.Upgrades.{IsUpgradeOf, Upgraded, Upgrades};

/// The second version of what an index file holds is an upgrade of it. What an upgrade leaves, from the course that was followed and from what was
/// made; and two runs in which no call failed and memory was found, of which one asks or judges the old file and the other the new one, with the
/// same points, end alike. Which two edges are named, where some conflict, may differ. No file but the new one is made, nothing is written on an
/// output, and no steps are counted. The call does nothing: its contract is the law.
pub fn upgrade_law()
    ensures is_upgrade { (bytes : Text) (c : Content) → AreBytes bytes → IsIndexFile c bytes
        → IsUpgradeOf bytes (bytes_of 2 c) }
    ensures upgrades { (old new : Text) (from to : Moment) (n n' : Stream) (status : ℕ)
        → Ended (upgrade_course old new) from to n n' status → Upgraded old new from.shelf to.shelf status
        → Upgrades old new from to n n' status }
    ensures asked { (bytes made old new points text : Text) (r s : Run) → IsUpgradeOf bytes made
        → RanWell (ask_course old points) r → RanWell (ask_course new points) s
        → r.old.shelf.told old ≡ holds bytes → s.old.shelf.told new ≡ holds made
        → r.old.shelf.told points ≡ holds text → s.old.shelf.told points ≡ holds text
        → GaveSame r s × NotedSame r s }
    ensures judged { (bytes made old new : Text) (r s : Run) (is : IsUpgradeOf bytes made)
        → RanWell (verify_course old) r → RanWell (verify_course new) s
        → r.old.shelf.told old ≡ holds bytes → s.old.shelf.told new ≡ holds made
        → GaveSame r s × (IfSome (first_flaw is.content) (λ flaw. IsTrue (not (is_clash flaw))) → NotedSame r s) }
    ensures at_once { (old new : Text) → AtOnce (upgrade_course old new) }
    ensures makes_one { (old new name : Text) → name ≢ new → MayMake (upgrade_course old new) name → ⊥ }
    ensures searches_nothing { (old new : Text) → SearchesNothing (upgrade_course old new) }
{}

/// What the edges of an index file tell, from the course that was followed and from what was told. The course writes at once, makes no file and
/// searches nothing. The call does nothing: its contract is the law.
pub fn edges_law()
    ensures tells { (index : Text) (old new : Moment) (n n' : Stream) (status : ℕ)
        → Sentences (edges_course index) old new n n' status → Listed (old.shelf.told index) status
        → TellsEdges index old new n n' status }
    ensures plain { (index : Text) → IsPlain (edges_course index) }
    ensures searches_nothing { (index : Text) → SearchesNothing (edges_course index) }
{}
