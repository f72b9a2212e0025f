//! What texts mean, and what is written: the definitions that the contracts of other crates cite, with their laws. No function here
//! has anything to do at run time.
#![tactic(auto)]

mod limits;
mod scale;

ghost use Rattle.std.specs.Prelude.{◌≡◌, ◌++◌, ◌↔◌, ℕ, List, Some, Result};
ghost use Rattle.loc_spec_text.specs.Bytes.{ended_lines, unfinished};
ghost use Rattle.loc_spec_text.specs.Geometry.{IsTree, PointText, Polygon, numbers};
ghost use Rattle.loc_spec_text.specs.Reader.{geometry_of};
ghost use Rattle.loc_spec_text.specs.Reading.{Polygons, Reads, reading};
ghost use Rattle.loc_spec_text.specs.declared.TextFault.{TextFault};

pub use limits::{
    MOST_FEATURES, MOST_ID_BYTES, MOST_INDEX, MOST_LINE, MOST_MEMBERS, MOST_PIECES, MOST_POINTS,
    MOST_SCALE, MOST_TEXT,
};
pub use scale::Scale;

/// What is wrong with a geometry text. Numbers and rings are counted from 1 through the text.
#[derive(Clone, Copy, Debug, Drop)]
pub enum TextFault {
    Syntax,
    Tag,
    Dimension,
    OffGrid { number: u32 },
    Range { number: u32 },
    RingOpen { ring: u32 },
    RingShort { ring: u32 },
    /// Memory was wanting. It says nothing of the text.
    NoMemory,
}

/// The forms of a layer text: a geometry text a line, or records whose columns have names.
#[derive(Clone, Copy, Drop)]
pub enum Form {
    Lines,
    Csv,
}

/// The plain reader gives a text's tree exactly where the grammar does, so a text has at most one tree.
pub fn tree_law()
    ensures { (text : List ℕ) (tree : List (Polygon PointText)) → IsTree numbers text tree ↔ (geometry_of text ≡ Some tree) }
{}

/// What a text reads as is what the grammar and the order of the faults say, and nothing else is.
pub fn reading_law()
    ensures { (scale : ℕ) (text : List ℕ) (read : Result Polygons TextFault) → Reads scale text read ↔ (read ≡ reading scale text) }
{}

/// However a text is cut into pieces, the same lines end.
pub fn lines_law()
    ensures { (text piece : List ℕ) → ended_lines (text ++ piece) ≡ ended_lines text ++ ended_lines (unfinished text ++ piece) }
{}
