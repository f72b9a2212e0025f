//! Raw nodes: a pool of rows, each named by a link, as the memory of a persistent tree.
#![tactic(auto)]

ghost use Rattle.std.specs.Prelude.{◌≡◌};
ghost use Rattle.loc_pool.specs.declared.Turn.TheVariants.{Left};
ghost use Rattle.loc_pool.specs.Rows.{no_link};
ghost use Rattle.loc_pool.specs.Same.{same};

mod heap;
mod node;
mod pool;
mod slabs;

pub use pool::Pool;

/// The side of a child.
#[derive(Clone, Copy, Drop)]
pub enum Turn {
    Left,
    Right,
}

/// The colour of a node.
#[derive(Clone, Copy, Drop)]
pub enum Colour {
    Red,
    Black,
}

/// The name of one node: its place in the order of making, from 1 on.
#[derive(Clone, Copy, Drop)]
pub struct Link {
    number: u32,
}

/// A child that counts from a version on, in place of the plain one on its side.
#[derive(Clone, Copy, Drop)]
pub struct Extra {
    pub turn: Turn,
    pub version: u32,
    pub to: Option<Link>,
}

impl Link {
    /// Whether this is the default link.
    #[tactic(auto, unfolding(crate::specs::Same::same))]
    pub fn is_default(self) -> bool
        ensures { result ≡ same self no_link }
    {
        self.number == 0
    }
}

impl Default for Link {
    /// The link of no pool.
    fn default() -> Self
        ensures { result ≡ no_link }
    {
        Link { number: 0 }
    }
}

impl Default for Turn {
    fn default() -> Self
        ensures { result ≡ Left }
    {
        Turn::Left
    }
}
