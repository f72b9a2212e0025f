//! Steady files and a steady sink, on which calls succeed with ample memory.

use crate::page::Page;
use loc_io::{Shelf, SteadyShelf, SteadySink, read_all, write_all};
use std::alloc::Global;

// Whether the file under the name has these bytes.
fn reads(alloc: Global, shelf: &mut SteadyShelf, name: &str, bytes: &[u8]) -> bool {
    match read_all(alloc, shelf, name, 1000000) {
        Ok(read) => read.as_slice() == bytes,
        Err(_) => false,
    }
}

// Reads "a" in two pieces, and makes "b" of two. The number of calls before one failed.
fn calls_before_failure(shelf: &mut SteadyShelf) -> u64 {
    let mut into = [0; 3];
    let Ok(()) = shelf.take_up("a") else {
        return 0;
    };
    let Ok(_) = shelf.read(&mut into) else {
        return 1;
    };
    let Ok(_) = shelf.read(&mut into) else {
        return 2;
    };
    let Ok(()) = shelf.create("b") else {
        return 3;
    };
    let Ok(_) = shelf.write(b"xy") else {
        return 4;
    };
    let Ok(_) = shelf.write(b"z") else {
        return 5;
    };
    match shelf.finish() {
        Ok(()) => 7,
        Err(_) => 6,
    }
}

// Hands in a file, takes it up, and hands in another of its name. Whether the first is read behind that.
fn reads_taken_up(shelf: &mut SteadyShelf) -> bool {
    let mut into = [0; 5];
    let Ok(()) = shelf.put("b", b"other") else {
        return false;
    };
    let Ok(()) = shelf.take_up("b") else {
        return false;
    };
    let Ok(()) = shelf.put("b", b"new") else {
        return false;
    };
    matches!(shelf.read(&mut into), Ok(5)) && into == *b"other"
}

// Prints what steady files do.
fn show_files(page: &mut Page, alloc: Global, shelf: &mut SteadyShelf) {
    let taken_up = reads_taken_up(shelf);
    let new = reads(alloc, shelf, "b", b"new");
    let absent = reads(alloc, shelf, "c", b"");
    for holds in [taken_up, new, absent] {
        page.put(if holds { "true " } else { "false " });
    }
    page.put_numbers(&[("", calls_before_failure(shelf))], " ");
}

/// `ask steady`: whether steady files and a steady sink do as is told, and how many of seven calls succeed.
pub(crate) fn steady(page: &mut Page, alloc: Global) {
    let mut shelf = SteadyShelf::new(alloc);
    show_files(page, alloc, &mut shelf);
    drop(shelf);
    page.put_fact(write_all(&mut SteadySink::new(), b"ab").is_ok());
}
