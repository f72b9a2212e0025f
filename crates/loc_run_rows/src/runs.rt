//! A run over a shelf and sinks in memory, and what it leaves.

ghost use Rattle.std.specs.Prelude.{◌≡◌, ◌<◌};

use crate::escapes::unescaped;
use crate::page::Page;
use crate::watched::{WatchedShelf, WatchedSink};
use loc_io::{MemShelf, MemSink};
use loc_top::{Steps, run};
use std::alloc::Global;
use std::marker::Brand;
use std::sync::ledger::{Blank, Ledger};

/// Files, and what a run over them leaves: its status, and what stands on out and on notes. Before a run that is nothing.
#[derive(Drop)]
pub(crate) struct Left {
    pub(crate) status: u8,
    pub(crate) shelf: WatchedShelf,
    pub(crate) out: WatchedSink,
    pub(crate) notes: WatchedSink,
}

// The calls that fail, where this one does.
fn failing_calls(page: &mut Page, alloc: Global, call: u64) -> Vec<u64> {
    let mut calls = Vec::new(alloc);
    let has_failed = calls.push(call).is_err();
    page.note(has_failed);
    calls
}

// A sink of which one write fails, and of which each takes so many bytes at most.
fn sink(page: &mut Page, alloc: Global, call: u64, most: usize) -> WatchedSink {
    WatchedSink {
        sink: MemSink::new(alloc, failing_calls(page, alloc, call)),
        calls: 0,
        most,
    }
}

impl Left {
    /// No files, and nothing that has run: which call of the shelf, of out and of notes will fail, by its number, 0 for none; and how many bytes a
    /// call takes at most, 0 for no bound.
    pub(crate) fn new(page: &mut Page, alloc: Global, calls: [u64; 3], most: usize) -> Left {
        let [shelf, out, notes] = calls;
        Left {
            status: 0,
            shelf: WatchedShelf {
                files: MemShelf::new(alloc, failing_calls(page, alloc, shelf)),
                calls: 0,
                most,
            },
            out: sink(page, alloc, out, most),
            notes: sink(page, alloc, notes, most),
        }
    }

    /// Whether another run has the same status, and left the same on out and on notes.
    pub(crate) fn is_same(&self, other: &Left) -> bool {
        self.status == other.status
            && self.out.sink.bytes() == other.out.sink.bytes()
            && self.notes.sink.bytes() == other.notes.sink.bytes()
    }

    /// Runs words over the files.
    pub(crate) fn run(&mut self, alloc: Global, words: &[String]) {
        let blank = Blank::new(1);
        self.status = status::<Brand>(alloc, words, self, blank);
    }
}

// The status of a run whose steps are counted in a ledger that is blank.
fn status<L: Ledger>(alloc: Global, words: &[String], left: &mut Left, blank: Blank) -> u8
    requires name { blank.name ≡ L.name }
    requires parts { blank.parts ≡ L.parts }
    requires some { 0 < L.parts }
{
    let mut steps = Steps::<L>::new(blank);
    run(
        alloc,
        words,
        &mut left.shelf,
        &mut left.out,
        &mut left.notes,
        &mut steps,
    )
}

// Puts the word that a word of a line stands for behind others.
fn put_word(words: &mut Vec<String>, page: &mut Page, alloc: Global, word: &str) {
    match String::from_utf8(unescaped(page, alloc, word)) {
        Ok(meant) => {
            let has_failed = words.push(meant).is_err();
            page.note(has_failed);
        }
        Err(_) => page.refuse(),
    }
}

/// The words of a line, with one space between each two, where `\e` is the empty word; an empty line has none.
pub(crate) fn words_of(page: &mut Page, alloc: Global, line: &str) -> Vec<String> {
    let mut words = Vec::new(alloc);
    if !line.is_empty() {
        for word in line.split(' ') {
            put_word(&mut words, page, alloc, word);
        }
    }
    words
}
