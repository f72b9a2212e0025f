// The names of the lowest and of the highest trapezoid that begin at each corner.

ghost use Rattle.std.specs.Prelude.{◌≡◌, ℕ, ◌<◌, ◌≤◌, Some, IsSome, IfSome, length, vec_capacity};
ghost use Rattle.loc_laws_traps.specs.Maps.{Renames};
ghost use Rattle.loc_traps.specs.Meaning.{row_of, named_of};
ghost use Rattle.loc_traps.specs.Names.{starts_apart, bound_of, is_kind, IsNamable, IsOneOfAKind};

use loc_edges::Ranks;
use loc_spec_plane::Trap;

// The name at a corner.
pub(crate) fn name_at(names: &[Option<usize>], corner: u32) -> usize
    requires { IsSome (named_of names.now corner) }
    ensures { named_of names.now corner ≡ Some result }
{
    names[corner as usize].unwrap()
}

// Whether a bound is missing, or begins elsewhere.
fn begins_elsewhere(ranks: &Ranks<'_>, bound: Option<u32>, corner: u32) -> bool
    requires { IfSome bound (λ e. e < length ranks.now.ends) }
    ensures { result ≡ starts_apart ranks.now corner bound }
{
    match bound {
        None => true,
        Some(edge) => ranks.ends(edge).0 != corner,
    }
}

// The two kinds of trapezoids that are named at the corner where they begin.
#[derive(Clone, Copy)]
pub(crate) enum Kind {
    Lowest,
    Highest,
}

// The bound that does not begin at the corner where a trapezoid of the kind does.
fn bound(kind: Kind, row: Trap) -> Option<u32>
    ensures { result ≡ bound_of kind row }
{
    match kind {
        Kind::Lowest => row.bottom,
        Kind::Highest => row.top,
    }
}

// Names each new row, from a number on, where it is the one of its kind that begins at its corner.
pub(crate) fn rename(
    ranks: &Ranks<'_>,
    rows: &[Trap],
    from: usize,
    kind: Kind,
    names: &mut [Option<usize>],
)
    requires within { from ≤ length rows.now }
    requires in_range { (i : ℕ) → from ≤ i → i < length rows.now → IsNamable ranks.now (length names.old) (row_of rows.now i) }
    requires one { IsOneOfAKind from (length rows.now) (row_of rows.now) (is_kind kind ranks.now) }
    ensures { Renames from (length rows.now) (row_of rows.now) (is_kind kind ranks.now) (named_of names.old) (named_of names.new) }
{
    'new: for i in from..rows.len() {
        let row = rows[i];
        if let Some(left) = row.left {
            if begins_elsewhere(ranks, bound(kind, row), left) {
                names[left as usize] = Some(i);
            }
        }
    }
}

// Names the new rows of a kind in a list that has room for so many corners, and now has a place for each of them.
pub(crate) fn name_new(
    ranks: &Ranks<'_>,
    rows: &[Trap],
    from: usize,
    kind: Kind,
    corners: usize,
    names: &mut Vec<Option<usize>>,
)
    requires within { from ≤ length rows.now }
    requires room { corners ≤ vec_capacity names.old }
    requires in_range { (i : ℕ) → from ≤ i → i < length rows.now → IsNamable ranks.now corners (row_of rows.now i) }
    requires one { IsOneOfAKind from (length rows.now) (row_of rows.now) (is_kind kind ranks.now) }
    ensures { Renames from (length rows.now) (row_of rows.now) (is_kind kind ranks.now) (named_of names.old.items) (named_of names.new.items) }
{
    let many = names.len().max(corners);
    names.resize(many, None).unwrap();
    rename(ranks, rows, from, kind, names);
}
