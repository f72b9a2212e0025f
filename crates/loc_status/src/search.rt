// The search for a place in a list of edges, by halving.

ghost use Rattle.std.specs.Prelude.{◌<◌, length};
ghost use Rattle.std.specs.List.{All};
ghost use Rattle.loc_status.specs.Targets.{IsTarget, is_passed, IsSearchEnd};

use crate::Target;
use loc_edges::Ranks;

// The first place of a list whose edge does not stand before the target, if those that do come first.
pub(crate) fn search(list: &[u32], ranks: &Ranks<'_>, target: Target) -> usize
    requires in_range { All (λ e. e < length ranks.now.ends) list.now }
    requires target_in_range { IsTarget ranks.now target }
    ensures { IsSearchEnd (is_passed ranks.now target) list.now result }
{
    let mut low = 0;
    let mut high = list.len();
    while low < high {
        let middle = low + (high - low) / 2;
        if target.passes(ranks, list[middle]) {
            low = middle + 1;
        } else {
            high = middle;
        }
    }
    low
}
