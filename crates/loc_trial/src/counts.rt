//! The line of a trial.

ghost use Rattle.std.specs.Prelude.{◌≡◌, ◌++◌, IfOk, OnOk};
ghost use Rattle.std.specs.Fmt.{decimal};
ghost use Rattle.loc_spec_text.specs.Points.{ended};
ghost use Rattle.loc_trial.specs.Trials.{kind_text, nodes_text, sizes_text, tally_text};

use itoa::Buffer;
use loc_batch::Tally;
use loc_gen::Kind;
use std::alloc::{AllocError, Global};

// The name of a kind.
fn kind_name(kind: Kind) -> &'static str
    ensures { result.now ≡ kind_text kind }
{
    match kind {
        Kind::Grid => "grid",
        Kind::Nest => "nest",
        Kind::Strips => "strips",
    }
}

// A word and a number.
fn push_count(line: &mut Vec<u8>, word: &[u8], number: u64) -> Result<(), AllocError>
    ensures { OnOk result (line.new.items ≡ line.old.items ++ (word.now ++ decimal number)) }
{
    let mut buffer = Buffer::new();
    line.extend_from_slice(word)?;
    line.extend_from_slice(buffer.format(number).as_bytes())?;
    Ok(())
}

// What was generated.
fn push_sizes(
    line: &mut Vec<u8>,
    kind: Kind,
    n: u64,
    shift: u64,
    corners: u32,
    edges: u32,
) -> Result<(), AllocError>
    ensures { OnOk result (line.new.items ≡ line.old.items ++ sizes_text kind n shift corners edges) }
{
    line.extend_from_slice(b"trial ")?;
    line.extend_from_slice(kind_name(kind).as_bytes())?;
    push_count(line, b" ", n)?;
    push_count(line, b" ", shift)?;
    push_count(line, b" corners ", corners as u64)?;
    push_count(line, b" edges ", edges as u64)?;
    Ok(())
}

// What was answered.
fn push_tally(line: &mut Vec<u8>, tally: Tally) -> Result<(), AllocError>
    ensures { OnOk result (line.new.items ≡ line.old.items ++ tally_text tally) }
{
    push_count(line, b" corner ", tally.corners)?;
    push_count(line, b" border ", tally.borders)?;
    push_count(line, b" face ", tally.faces)?;
    push_count(line, b" on ", tally.on)?;
    push_count(line, b" in ", tally.covering)?;
    Ok(())
}

// The number of nodes, where it is told.
fn push_nodes(line: &mut Vec<u8>, nodes: Option<u32>) -> Result<(), AllocError>
    ensures { OnOk result (line.new.items ≡ line.old.items ++ nodes_text nodes) }
{
    match nodes {
        Some(nodes) => push_count(line, b" nodes ", nodes as u64),
        None => Ok(()),
    }
}

/// The line of a trial on a layer with so many corners and edges.
pub(crate) fn line_of(
    alloc: Global,
    kind: Kind,
    n: u64,
    shift: u64,
    corners: u32,
    edges: u32,
    tally: Tally,
    nodes: Option<u32>,
) -> Result<Vec<u8>, AllocError>
    ensures { IfOk result (λ line. line.items ≡ ended
        (sizes_text kind n shift corners edges ++ tally_text tally ++ nodes_text nodes)) }
{
    let mut line = Vec::new(alloc);
    push_sizes(&mut line, kind, n, shift, corners, edges)?;
    push_tally(&mut line, tally)?;
    push_nodes(&mut line, nodes)?;
    line.push(b'\n')?;
    Ok(line)
}
