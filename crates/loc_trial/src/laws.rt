//! What generated layers read as, and what the courses of their commands are.

ghost use Rattle.std.specs.Prelude.{◌≡◌, ◌*◌, ◌<◌, ◌≤◌, Ok, Some, ℕ};
ghost use Rattle.loc_spec_text.specs.Bytes.{Text};
ghost use Rattle.loc_io.specs.Meaning.{Told};
ghost use Rattle.loc_spec_asked.specs.declared.Index.{Index as IndexOf};
ghost use Rattle.loc_spec_text.specs.Points.{ended, point_of};
ghost use Rattle.loc_spec_text.specs.declared.Form.TheVariants.{Lines};
ghost use Rattle.loc_csvform.specs.Layer.{layer_of};
ghost use Rattle.loc_gen.specs.declared.kinds.Kind.{Kind};
ghost use Rattle.loc_gen.specs.Layers.{layer_text, limit_of, point_number};
ghost use Rattle.loc_course.specs.Outcomes.{exactly, outcome, output, refusal};
ghost use Rattle.loc_course.specs.Sentences.{IsPlain, SearchesNothing, WithinSteps};
ghost use Rattle.loc_maps.specs.Located.{table_in};
ghost use Rattle.loc_query.specs.QueryCourses.{steps_by};
ghost use Rattle.loc_trial.specs.Generated.{generated, point_line};
ghost use Rattle.loc_trial.specs.TrialCourses.{gen_course, past_text, trial_course};

/// The text of a generated layer reads as its rectangles, numbered from 1, and the line of a point reads as that point. The call does
/// nothing: its contract is the law.
pub fn generated_law()
    ensures layers { (kind : Kind) (n shift : ℕ) → n ≤ limit_of kind
        → layer_of Lines 0 (layer_text kind n shift) ≡ Ok (generated kind n shift) }
    ensures points { (n shift t : ℕ) → t < n → n ≤ 131072
        → point_of 0 (point_line n shift t) ≡ Some (point_number n shift t) }
{}

/// Generating a layer comes to its text, or to the line that its size is past the limit. It writes at once, makes no file and searches
/// nothing. The call does nothing: its contract is the law.
pub fn gen_law()
    ensures within { (told : Text → Told) (kind : Kind) (n shift : ℕ) → n ≤ limit_of kind
        → outcome told (gen_course kind n shift) ≡ output (exactly (layer_text kind n shift)) }
    ensures past { (told : Text → Told) (kind : Kind) (n shift : ℕ) → limit_of kind < n
        → outcome told (gen_course kind n shift) ≡ refusal (exactly (ended (past_text n (limit_of kind)))) }
    ensures plain { (kind : Kind) (n shift : ℕ) → IsPlain (gen_course kind n shift) }
    ensures searches_nothing { (kind : Kind) (n shift : ℕ) → SearchesNothing (gen_course kind n shift) }
{}

/// A trial past the limit is refused by its line. It writes at once and makes no file, and counts at most the steps of an answer for each
/// point. The call does nothing: its contract is the law.
pub fn trial_law()
    ensures past { (told : Text → Told) (index : IndexOf) (kind : Kind) (n shift : ℕ) → limit_of kind < n
        → outcome told (trial_course index kind n shift) ≡ refusal (exactly (ended (past_text n (limit_of kind)))) }
    ensures plain { (index : IndexOf) (kind : Kind) (n shift : ℕ) → IsPlain (trial_course index kind n shift) }
    ensures steps { (told : Text → Told) (index : IndexOf) (kind : Kind) (n shift : ℕ)
        → WithinSteps told (trial_course index kind n shift) (n * steps_by index (table_in (generated kind n shift))) }
{}
