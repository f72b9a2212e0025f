//! The row of a node with its pointers by number, as it is written to a file.
ghost use Rattle.std.specs.Prelude.{◌≡◌, true, Some};
ghost use Rattle.loc_pool.specs.declared.Link.{Link};
ghost use Rattle.loc_pool.specs.Maps.{has};
ghost use Rattle.loc_pool.specs.Rows.{row};
ghost use Rattle.loc_persist.specs.Numbered.{IsNumber, turn_number, side_of, stamp_of, to_of, IsNodeRow};
ghost use Rattle.loc_persist.specs.Present.{IsClosed};

use loc_pool::{Extra, Link, Pool, Turn};
use loc_spec_index::NodeRow;

/// The row of a node of the pool.
pub(crate) fn numbered(pool: &Pool, at: Link) -> NodeRow
    requires row { has pool.now.rows at ≡ true }
    requires closed { IsClosed pool.now.rows (row pool.now.rows at) }
    ensures { IsNodeRow pool.now.rows (row pool.now.rows at) result }
{
    let (side, stamp, extra) = numbered_extra(pool, pool.extra(at));
    NodeRow {
        item: pool.item(at),
        left: number_of(pool, pool.plain(at, Turn::Left)),
        right: number_of(pool, pool.plain(at, Turn::Right)),
        side,
        stamp,
        extra,
    }
}

/// The side, the version and the pointer of an extra.
fn numbered_extra(pool: &Pool, extra: Option<Extra>) -> (u8, u32, u32)
    requires { (link : Link) → to_of extra ≡ Some link → has pool.now.rows link ≡ true }
    ensures side { result.0 ≡ side_of extra }
    ensures stamp { result.1 ≡ stamp_of extra }
    ensures to { IsNumber pool.now.rows (to_of extra) result.2 }
{
    match extra {
        None => (0, 0, 0),
        Some(extra) => (
            side_number(extra.turn),
            extra.version,
            number_of(pool, extra.to),
        ),
    }
}

/// The number of a side.
fn side_number(turn: Turn) -> u8
    ensures { result ≡ turn_number turn }
{
    match turn {
        Turn::Left => 1,
        Turn::Right => 2,
    }
}

/// The number of a pointer.
pub(crate) fn number_of(pool: &Pool, to: Option<Link>) -> u32
    requires { (link : Link) → to ≡ Some link → has pool.now.rows link ≡ true }
    ensures { IsNumber pool.now.rows to result }
{
    match to {
        None => 0,
        Some(at) => pool.number(at),
    }
}
