// Rising lists of numbers.

ghost use Rattle.std.specs.Prelude.{◌≡◌, ℕ, ◌<◌, ◌≤◌, IsTrue, length, nat_lt, slice_index};
ghost use Rattle.loc_spec_plane.specs.Lists.{is_in, is_rising};

/// The place of the first member that is not below n.
pub(crate) fn first_from(list: &[u32], n: u32) -> usize
    requires rises { IsTrue (is_rising nat_lt list.now) }
    ensures within { result ≤ length list.now }
    ensures below { (k : ℕ) → k < result → slice_index list.now k < n }
    ensures from { (k : ℕ) → result ≤ k → k < length list.now → n ≤ slice_index list.now k }
{
    match list.binary_search(&n) {
        Ok(at) => at,
        Err(at) => at,
    }
}

/// Whether n is a member.
pub(crate) fn is_among(list: &[u32], n: u32) -> bool
    requires rises { IsTrue (is_rising nat_lt list.now) }
    ensures { result ≡ is_in n list.now }
{
    let at = first_from(list, n);
    if at == list.len() {
        return false;
    }
    list[at] == n
}
