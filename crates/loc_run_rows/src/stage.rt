//! Where a row is played: its files, and what its last run left.

use crate::page::Page;
use crate::runs::{Left, words_of};
use std::alloc::{AllocError, Global};
use std::mem;

/// The names of the files of a row, the words that are run, whether some have run, and the files with what the last run left.
#[derive(Drop)]
pub(crate) struct Stage {
    pub(crate) alloc: Global,
    names: Vec<String>,
    pub(crate) words: Vec<String>,
    has_run: bool,
    pub(crate) left: Left,
}

// Whether a name is one of these.
fn has_name(names: &[String], name: &str) -> bool {
    for known in names {
        if known.as_str() == name {
            return true;
        }
    }
    false
}

// Puts a name behind others, if there was memory for it.
fn add_name(names: &mut Vec<String>, page: &mut Page, name: Result<String, AllocError>) {
    let has_failed = match name {
        Ok(name) => names.push(name).is_err(),
        Err(_) => true,
    };
    page.note(has_failed);
}

impl Stage {
    /// A stage without files, where nothing has run.
    pub(crate) fn new(page: &mut Page, alloc: Global) -> Stage {
        Stage {
            alloc,
            names: Vec::new(alloc),
            words: Vec::new(alloc),
            has_run: false,
            left: Left::new(page, alloc, [0; 3], 0),
        }
    }

    /// Puts the file that a step makes there, in place of one with this name.
    pub(crate) fn put(&mut self, page: &mut Page, name: &str) {
        if !has_name(&self.names, name) {
            add_name(&mut self.names, page, String::from_str(self.alloc, name));
        }
        let has_failed = self.left.shelf.files.put(name, &page.made).is_err();
        page.note(has_failed);
    }

    /// The bytes of a file, which has to be there.
    pub(crate) fn bytes(&self, page: &mut Page, name: &str) -> &[u8] {
        match self.left.shelf.files.bytes(name) {
            Some(bytes) => bytes,
            None => {
                page.refuse();
                &[]
            }
        }
    }

    /// What the last run left on out, which has to be there.
    pub(crate) fn out(&self, page: &mut Page) -> &[u8] {
        if !self.has_run {
            page.refuse();
        }
        self.left.out.sink.bytes()
    }

    /// Takes the words of a line.
    pub(crate) fn take_words(&mut self, page: &mut Page, line: &str) {
        self.words = words_of(page, self.alloc, line);
    }

    /// Runs the words of a line over the files, which a run may add to. Whether they leave the same as the last run, whose place this one takes.
    pub(crate) fn play(&mut self, page: &mut Page, line: &str) -> bool {
        self.take_words(page, line);
        let mut left = Left::new(page, self.alloc, [0; 3], 0);
        mem::swap(&mut left.shelf, &mut self.left.shelf);
        left.run(self.alloc, &self.words);
        let agrees = self.has_run && left.is_same(&self.left);
        self.has_run = true;
        self.left = left;
        agrees
    }

    /// What the words leave over a copy of the files, where a call of the shelf, of out or of notes fails, or a call takes so many bytes at most.
    pub(crate) fn trial(&self, page: &mut Page, calls: [u64; 3], most: usize) -> Left {
        let mut left = Left::new(page, self.alloc, calls, most);
        for name in &self.names {
            let bytes = self.bytes(page, name.as_str());
            let has_failed = left.shelf.files.put(name.as_str(), bytes).is_err();
            page.note(has_failed);
        }
        left.run(self.alloc, &self.words);
        left
    }

    // Whether a run has made a file with this name, which is not noted.
    fn is_made(&self, name: &str) -> bool {
        self.left.shelf.files.bytes(name).is_some() && !has_name(&self.names, name)
    }

    /// Notes the first of the words that is the name of a file which a run has made. Whether there is one.
    pub(crate) fn note_made(&mut self, page: &mut Page) -> bool {
        for word in &self.words {
            if self.is_made(word.as_str()) {
                let name = String::from_str(self.alloc, word.as_str());
                add_name(&mut self.names, page, name);
                return true;
            }
        }
        false
    }

    /// The name that was noted last.
    pub(crate) fn last_name(&self) -> &str {
        match self.names.last() {
            Some(name) => name.as_str(),
            None => "",
        }
    }
}
