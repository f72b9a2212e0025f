// The two least of some numbers, and the least of pairs.

ghost use Rattle.std.specs.Prelude.{◌≡◌, ◌==◌, ℕ, ◌<◌, ◌≤◌, All, length, get_or, slice_index};
ghost use Rattle.loc_spec_plane.specs.Lists.{odd_many};
ghost use Rattle.loc_spec_plane.specs.Tables.{pair_before};
ghost use Rattle.loc_valid.specs.Hits.{AreLeast, lesser_of, other_than, turned_by};

/// The two least of some numbers, as far as there are two.
#[derive(Clone, Copy, Drop)]
pub(crate) enum Least {
    Zero,
    One(u32),
    Two(u32, u32),
}

// The two least, where n is put to the numbers, or taken from them where it is one of them. None of them is past it.
fn turned(least: Least, n: u32) -> Least
    ensures { result ≡ turned_by least n }
{
    match least {
        Least::Zero => Least::One(n),
        Least::One(a) => {
            if a == n {
                Least::Zero
            } else {
                Least::Two(a, n)
            }
        }
        Least::Two(a, b) => {
            if b == n {
                Least::One(a)
            } else {
                Least::Two(a, b)
            }
        }
    }
}

/// The two least polygons of which a list has an odd number of rings.
pub(crate) fn least_odd(list: &[u32], homes: &[u32]) -> Least
    requires in_range { All (λ ring. ring < length homes.now) list.now }
    requires climbs { (i j : ℕ) → i ≤ j → j < length list.now → slice_index homes.now (slice_index list.now i) ≤ slice_index homes.now (slice_index list.now j) }
    ensures { AreLeast (λ m. odd_many (λ ring. slice_index homes.now ring == m) list.now) result }
{
    let mut least = Least::Zero;
    for ring in list {
        least = turned(least, homes[*ring as usize]);
    }
    least
}

/// The pair of n and the least of the numbers that is not n.
pub(crate) fn other_of(least: Least, n: u32) -> Option<(u32, u32)>
    ensures { result ≡ other_than least n }
{
    match least {
        Least::Zero => None,
        Least::One(a) => { if a == n { None } else { Some((n, a)) } }
        Least::Two(a, b) => { if a == n { Some((n, b)) } else { Some((n, a)) } }
    }
}

// Whether the one pair comes before the other.
fn comes_before(a: (u32, u32), b: (u32, u32)) -> bool
    ensures { result ≡ pair_before a b }
{
    a.0 < b.0 || (a.0 == b.0 && a.1 < b.1)
}

/// The lesser of two pairs, where there are two.
pub(crate) fn lesser(a: Option<(u32, u32)>, b: Option<(u32, u32)>) -> Option<(u32, u32)>
    ensures { result ≡ lesser_of a b }
{
    match (a, b) {
        (None, b) => b,
        (Some(a), None) => Some(a),
        (Some(a), Some(b)) => { if comes_before(b, a) { Some(b) } else { Some(a) } }
    }
}
