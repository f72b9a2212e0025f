// The sign of a number.

ghost use Rattle.std.specs.Prelude.{◌≡◌, ◌≤◌, ◌^◌, if◌then◌else◌, neg_ℤ, pos};
ghost use Rattle.loc_spec_plane.specs.Points.{OnGrid};
ghost use Rattle.loc_spec_text.specs.Number.{is_negative as is_negative_text, unsigned as unsigned_text};

pub(crate) const LIMIT: u64 = 1_000_000_000_000_000_000;

/// Whether a text begins with a minus.
pub(crate) fn is_negative(text: &[u8]) -> bool
    ensures { result ≡ is_negative_text text.now }
{
    matches!(text.first(), Some(b'-'))
}

/// The text behind its sign, if it has one.
pub(crate) fn unsigned(text: &[u8]) -> &[u8]
    ensures { result.now ≡ unsigned_text text.now }
{
    match text.first() {
        Some(b'+') | Some(b'-') => &text[1..],
        _ => text,
    }
}

/// A magnitude of at most 10^18, with its sign.
pub(crate) fn signed(magnitude: u64, negative: bool) -> i64
    requires { magnitude ≤ 10 ^ 18 }
    ensures value { result ≡ (if negative then neg_ℤ (pos magnitude) else pos magnitude) }
    ensures on_grid { OnGrid result }
{
    if negative {
        -(magnitude as i64)
    } else {
        magnitude as i64
    }
}
