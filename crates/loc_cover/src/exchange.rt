// A list of features in order, from which an edge takes those features that it marks odd, or to which it adds them.

ghost use Rattle.std.specs.Prelude.{◌≡◌, ℕ, ◌+◌, ◌<◌, ◌≤◌, ◌++◌, length, drop, nat_lt, slice_index, IsTrue, IfOk, OnOk};
ghost use Rattle.std.specs.List.{list_all};
ghost use Rattle.loc_spec_plane.specs.Lists.{exactly_one, is_in, is_rising, IsRisingListOf};
ghost use Rattle.loc_spec_plane.specs.Tables.{mark_before};
ghost use Rattle.loc_cover.specs.Exchanges.{IsExchange, is_marked_odd};

use loc_spec_plane::Mark;
use std::alloc::AllocError;

// The place of the first feature in a list that is not below this one.
fn first_from(list: &[u32], feature: u32) -> usize
    requires in_order { IsTrue (is_rising nat_lt list.now) }
    ensures within { result ≤ length list.now }
    ensures before { (k : ℕ) → k < result → slice_index list.now k < feature }
    ensures from { (k : ℕ) → result ≤ k → k < length list.now → feature ≤ slice_index list.now k }
{
    list.partition_point(|other| *other < feature)
}

// Moves what is below a feature from the rest to what was made, and then the feature itself exactly where the rest has it not. It answers
// how much of the rest is done with.
fn exchange(made: &mut Vec<u32>, rest: &[u32], feature: u32) -> Result<usize, AllocError>
    requires in_order { IsTrue (is_rising nat_lt (made.old.items ++ rest.now)) }
    requires behind { IsTrue (list_all (λ x. nat_lt x feature) made.old.items) }
    ensures within { IfOk result (λ done. done ≤ length rest.now) }
    ensures behind { IfOk result (λ _. IsTrue (list_all (λ x. nat_lt x (feature + 1)) made.new.items)) }
    ensures exchanged { IfOk result (λ done. IsExchange feature (made.old.items ++ rest.now) (made.new.items ++ drop done rest.now)) }
{
    let past = first_from(rest, feature);
    made.extend_from_slice(&rest[..past])?;
    if past < rest.len() && rest[past] == feature {
        return Ok(past + 1);
    }
    made.push(feature)?;
    Ok(past)
}

// Puts into a list, in place of what it held, the members of another with the features exchanged that are marked odd: each goes where it was
// a member, and comes where it was not.
pub(crate) fn exchange_marked(
    made: &mut Vec<u32>,
    list: &[u32],
    marks: &[Mark],
) -> Result<(), AllocError>
    requires list_in_order { IsTrue (is_rising nat_lt list.now) }
    requires marks_in_order { IsTrue (is_rising mark_before marks.now) }
    ensures { OnOk result (IsRisingListOf nat_lt (λ f. exactly_one (is_marked_odd marks.now f) (is_in f list.now)) made.new.items) }
{
    made.clear();
    let mut done = 0;
    for mark in marks {
        if mark.odd {
            done += exchange(made, &list[done..], mark.feature)?;
        }
    }
    made.extend_from_slice(&list[done..])?;
    Ok(())
}
