// An index file that was read, and the reader.

ghost use Rattle.std.specs.Prelude.{◌≡◌, ◌≤◌, ◌<◌, IsTrue, length, map, IfOk, IfErr};
ghost use Rattle.loc_spec_text.specs.Limits.{most_index};
ghost use Rattle.loc_spec_index.specs.Content.{table_in, cover_numbers, root_of};
ghost use Rattle.loc_spec_index.specs.IndexFile.{IsFileOf, bytes_of, is_version};
ghost use Rattle.loc_spec_index.specs.Nodes.{row_of};
ghost use Rattle.loc_cover.specs.Legends.{FitsTable};
ghost use Rattle.loc_file.specs.declared.edges.EdgeOf.{EdgeOf as Edge};
ghost use Rattle.loc_file.specs.Contents.{content_in};
ghost use Rattle.loc_file.specs.Written.{WritesFile};
ghost use Rattle.loc_file.specs.Refused.{IsRefused};
ghost use Rattle.loc_file.specs.Told.{told_source};
ghost use Rattle.loc_file.specs.Searches.{IsNodeIn};

use crate::cursor::Cursor;
use crate::edges::{EdgeOf, source_of};
use crate::parts::{Parts, read_parts};
use loc_cover::Legend;
use loc_edges::EdgeTable;
use loc_io::{Shelf, WriteFault};
use loc_spec_index::{IndexFault, NodeRow};
use loc_write::write_rows;
use std::alloc::{AllocError, Global};
use std::marker::Model;

// How many bytes may be left behind the last part.
const MOST_LEFT: u64 = 0;

/// What an index file holds. Nothing is said of it but that its bytes were a file: its table, its legend and its nodes may be those of no
/// layer.
#[derive(Drop)]
pub struct Held {
    version: u32,
    scale: u8,
    table: EdgeTable,
    legend: Legend,
    roots: Vec<u32>,
    nodes: Vec<NodeRow>,
}

impl Model for Held {
    ghost use Rattle.loc_file.specs.Keeping.{content_of, FileOf, IsHeld};

    ghost Value = { FileOf };

    ghost view = { λ h. record { version = h.version; content = content_of h.scale h.table h.legend h.roots.items h.nodes.items } };

    ghost invariant = { λ h. IsHeld h.version (content_of h.scale h.table h.legend h.roots.items h.nodes.items) h.table h.legend };
}

// The ends of edges.
fn ends_of(alloc: Global, edges: &[EdgeOf]) -> Result<Vec<(u32, u32)>, AllocError>
    ensures { IfOk result (λ ends. ends.items ≡ map (λ (e : Edge). e.ends) edges.now) }
{
    edges.iter().map(|edge| edge.ends).collect(alloc)
}

// The sources of edges in a file of this version.
fn sources_of(alloc: Global, version: u32, edges: &[EdgeOf]) -> Result<Vec<(u32, u32)>, AllocError>
    ensures { IfOk result (λ sources. sources.items ≡ map (told_source version) edges.now) }
{
    let mut sources = Vec::with_capacity(alloc, edges.len())?;
    for edge in edges {
        sources.push(source_of(version, *edge))?;
    }
    Ok(sources)
}

// The numbers of the cover lists of edges.
fn covers_of(alloc: Global, edges: &[EdgeOf]) -> Result<Vec<u32>, AllocError>
    ensures { IfOk result (λ covers. covers.items ≡ map (λ (e : Edge). e.cover) edges.now) }
{
    edges.iter().map(|edge| edge.cover).collect(alloc)
}

// The parts of a file, held.
fn hold(alloc: Global, parts: Parts) -> Result<Held, AllocError>
    requires { IsFileOf parts.version (content_in parts) (bytes_of parts.version (content_in parts)) }
    ensures { IfOk result (λ held. held ≡ record { version = parts.version; content = content_in parts }) }
{
    let Parts {
        version,
        scale,
        ids,
        corners,
        edges,
        marks,
        covers,
        floors,
        roots,
        nodes,
    } = parts;
    let ends = ends_of(alloc, edges.as_slice())?;
    let cover_of = covers_of(alloc, edges.as_slice())?;
    let sources = sources_of(alloc, version, edges.as_slice())?;
    let table = EdgeTable::of_parts(alloc, corners, ends, marks, sources)?;
    let legend = Legend::of_parts(alloc, &table, ids, covers, cover_of, floors)?;
    Ok(Held {
        version,
        scale: scale as u8,
        table,
        legend,
        roots,
        nodes,
    })
}

/// Reads the bytes of an index file. What is held is the one content whose bytes they are; bytes that are a file of neither version are
/// refused by their first fault; and want of memory may refuse any. Memory is taken only for what the bytes were seen to hold.
pub fn read_index(alloc: Global, bytes: &[u8]) -> Result<Held, IndexFault>
    requires { length bytes.now ≤ most_index }
    ensures ok { IfOk result (λ held. IsFileOf held.version held.content bytes.now) }
    ensures err { IfErr result (IsRefused bytes.now) }
{
    let mut cursor = Cursor::new(bytes);
    let parts = read_parts(alloc, &mut cursor)?;
    let rest = cursor.len();
    if rest > MOST_LEFT {
        return Err(IndexFault::Long { rest });
    }
    match hold(alloc, parts) {
        Ok(held) => Ok(held),
        Err(_) => Err(IndexFault::NoMemory),
    }
}

impl Held {
    /// What is true of all that is held, as a call that does no work: it is the content of a file.
    pub fn law(&self)
        ensures { IsFileOf self.now.version self.now.content (bytes_of self.now.version self.now.content) }
    {
        let _scale = self.scale;
    }

    /// The version of the file that was read.
    pub fn version(&self) -> u32
        ensures value { result ≡ self.now.version }
        ensures known { IsTrue (is_version result) }
    {
        self.version
    }

    /// The corners, edges and marks, and the sources of the edges.
    pub fn table(&self) -> &EdgeTable
        ensures { result.now ≡ table_in self.now.content }
    {
        &self.table
    }

    /// The ids, the cover lists and the floors; the features that touch corners and edges are those of the marks.
    pub fn legend(&self) -> &Legend
        ensures ids { result.now.ids ≡ self.now.content.ids }
        ensures covers { result.now.lists ≡ self.now.content.covers }
        ensures cover_of { result.now.above ≡ cover_numbers self.now.content }
        ensures floors { result.now.floors ≡ self.now.content.floors }
        ensures fits { FitsTable (table_in self.now.content) result.now }
    {
        &self.legend
    }

    /// How many decimals a coordinate may have.
    pub fn scale(&self) -> u8
        ensures value { result ≡ self.now.content.scale }
        ensures within { result ≤ 15 }
    {
        self.scale
    }

    /// How many nodes there are.
    pub fn nodes(&self) -> u32
        ensures { result ≡ length self.now.content.nodes }
    {
        self.nodes.len() as u32
    }

    /// The root of a version, or 0 where it has none.
    pub fn root(&self, version: u32) -> u32
        requires { version < length self.now.content.corners }
        ensures value { result ≡ root_of self.now.content version }
        ensures within { result ≤ length self.now.content.nodes }
    {
        self.roots[version as usize]
    }

    /// The row of the node with this number, which counts from 1.
    pub fn row(&self, number: u32) -> NodeRow
        requires { (1 ≤ number) × (number ≤ length self.now.content.nodes) }
        ensures value { result ≡ row_of self.now.content.nodes number }
        ensures within { IsNodeIn (length self.now.content.edges) (length self.now.content.nodes) result }
    {
        self.nodes[number as usize - 1]
    }
}

/// Makes the file of the second version of what is held. A `WriteFault` comes exactly where a call of the shelf failed; the file, where it is told,
/// then holds a front of the bytes, or is as before. No memory is taken.
pub fn write_held<F: Shelf>(shelf: &mut F, name: &str, held: &Held) -> Result<(), WriteFault>
    ensures file { IsFileOf 2 held.now.content (bytes_of 2 held.now.content) }
    ensures written { WritesFile name.now (bytes_of 2 held.now.content) (F.meaning shelf.old) (F.meaning shelf.new) result }
{
    write_rows(
        shelf,
        name,
        held.scale,
        &held.table,
        &held.legend,
        held.roots.as_slice(),
        held.nodes.as_slice(),
    )
}
