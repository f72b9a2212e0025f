//! Laws of the reader and of what it holds, as calls that do no work: their contracts are the laws.

ghost use Rattle.std.specs.Prelude.{◌≡◌};
ghost use Rattle.loc_place.specs.Steps.{most_steps};
ghost use Rattle.loc_file.specs.Depths.{most_of};
ghost use Rattle.loc_file.specs.Searches.{IsIndexFor};
ghost use Rattle.loc_file.specs.Refused.{OneRefusal, NoRefusalOfFile};

use crate::Held;
use loc_edges::EdgeTable;

/// Bytes are refused by one fault at most, and those of a file by none, want of memory aside.
pub fn one_refusal()
    ensures one { OneRefusal }
    ensures apart { NoRefusalOfFile }
{}

/// The most steps of a search in a true index are those of a search in the tree over its table.
pub fn most_of_tree(held: &Held, table: &EdgeTable)
    requires { IsIndexFor held.now.content table.now }
    ensures { most_of held.now.content table.now ≡ most_steps table.now }
{
    let _scale = held.scale();
}
