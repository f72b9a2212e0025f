//! Files that are kept in memory, each a name and its bytes.
ghost use Rattle.std.specs.Prelude.{◌≡◌, IsTrue, false, OnOk, OnErr, IfSome, Some, option_map, length, take, drop, [], ◌<◌, ◌≤◌};
ghost use Rattle.std.specs.List.{position};
ghost use Rattle.loc_io.specs.Files.{file_of, is_named, Puts, Grows, KeepsAll};

use std::alloc::{AllocError, Global};

/// A file in memory.
#[derive(Drop)]
pub struct MemFile {
    pub(crate) name: String,
    pub(crate) bytes: Vec<u8>,
}

// Where the first file with this name stands.
pub(crate) fn place_of(files: &[MemFile], name: &str) -> Option<usize>
    ensures { result ≡ position (is_named name.now) files.now }
{
    files.iter().position(|file| file.name.as_str() == name)
}

// The bytes of the first file with this name.
pub(crate) fn bytes_of<'a>(files: &'a [MemFile], name: &str) -> Option<&'a [u8]>
    ensures { option_map (λ bytes. bytes.now) result ≡ file_of files.now name.now }
{
    for file in files {
        if file.name.as_str() == name {
            return Some(file.bytes.as_slice());
        }
    }
    None
}

// A copy of the bytes of the first file with this name, if there is one and memory was found.
pub(crate) fn copy_of(alloc: Global, files: &[MemFile], name: &str) -> Option<Vec<u8>>
    ensures { IfSome result (λ bytes. file_of files.now name.now ≡ Some bytes.items) }
{
    bytes_of(files, name)?.to_vec(alloc).ok()
}

// Puts these bytes under the name, in place of those that are there.
pub(crate) fn put(
    alloc: Global,
    files: &mut Vec<MemFile>,
    name: &str,
    bytes: Vec<u8>,
) -> Result<(), AllocError>
    ensures ok { OnOk result (Puts name.now bytes.items files.old.items files.new.items) }
    ensures err { OnErr result (files.new.items ≡ files.old.items) }
{
    if let Some(place) = place_of(files, name) {
        files[place].bytes = bytes;
        return Ok(());
    }
    let name = String::from_str(alloc, name)?;
    files.push(MemFile { name, bytes })?;
    Ok(())
}

// Appends the piece to the file with this name, and says whether it did: it does not where there is
// no such file, or no memory for the piece.
pub(crate) fn append(files: &mut [MemFile], name: &str, piece: &[u8]) -> bool
    ensures grown { IsTrue result → Grows name.now piece.now files.old files.new }
    ensures same { result ≡ false → KeepsAll files.old files.new }
{
    match place_of(files, name) {
        Some(place) => files[place].bytes.extend_from_slice(piece).is_ok(),
        None => false,
    }
}

// Copies what stands from `at` on, as much as there is room for, and says how much that is.
pub(crate) fn copy_front(bytes: &[u8], at: usize, into: &mut [u8]) -> usize
    ensures room { result ≤ length into.new }
    ensures front { take result into.new ≡ take result (drop at bytes.now) }
    ensures there { result ≤ length (drop at bytes.now) }
    ensures end { result ≡ 0 → 0 < length into.new → drop at bytes.now ≡ [] }
{
    let left = bytes.get(at..).unwrap_or(&[]);
    let n = into.len().min(left.len());
    into[..n].copy_from_slice(&left[..n]);
    n
}
