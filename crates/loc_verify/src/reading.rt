// The reading of a node beside the list that it is to be.

ghost use Rattle.std.specs.Prelude.{◌≡◌, ◌≤◌, ◌↔◌, IsTrue, Some, length, slice_get};
ghost use Rattle.loc_spec_text.specs.Limits.{most_pieces};
ghost use Rattle.loc_verify.specs.Readings.{IsFollowed};

use crate::nodes::{left_of, right_of};
use loc_file::Held;

// How far the reading of a node goes with a list: up to a position where it ends, or to one where it has another item, or there was no room
// for a path.
pub(crate) enum Followed {
    Past(u32),
    Differs(u32),
    TooDeep,
}

// Whether a list has an item at a position.
fn has_at(list: &[u32], position: u32, item: u32) -> bool
    ensures { IsTrue result ↔ (slice_get list.now position ≡ Some item) }
{
    (position as usize) < list.len() && list[position as usize] == item
}

// Reads a node in a version, with room for so many nodes on a path, beside a list from a position on. It stops where they differ and
// where the room ends, so it comes to no more nodes than the list has edges and a path has room.
pub(crate) fn follow(
    held: &Held,
    version: u32,
    node: u32,
    room: u32,
    list: &[u32],
    read: u32,
) -> Followed
    requires node { node ≤ length held.now.content.nodes }
    requires within { read ≤ length list.now }
    requires few { length list.now ≤ most_pieces }
    ensures { IsFollowed held.now.content.nodes version node room list.now read result }
{
    if node == 0 {
        return Followed::Past(read);
    }
    if room == 0 {
        return Followed::TooDeep;
    }
    let row = held.row(node);
    match follow(held, version, left_of(row, version), room - 1, list, read) {
        Followed::Past(next) => {
            if !has_at(list, next, row.item) {
                return Followed::Differs(next);
            }
            follow(
                held,
                version,
                right_of(row, version),
                room - 1,
                list,
                next + 1,
            )
        }
        stop => stop,
    }
}
