//! What rows leave: the text that is printed, the bytes of the file that a step makes, and why rows are played no further.

use std::alloc::Global;

/// What is printed, the bytes of the file that a step makes, and why rows are played no further, where they are not: memory was wanting, or a step
/// is none. What fails is left out.
#[derive(Drop)]
pub(crate) struct Page {
    pub(crate) text: String,
    pub(crate) made: Vec<u8>,
    lacks_memory: bool,
    is_refused: bool,
}

impl Page {
    /// A page where nothing stands.
    pub(crate) fn new(alloc: Global) -> Page {
        Page {
            text: String::new(alloc),
            made: Vec::new(alloc),
            lacks_memory: false,
            is_refused: false,
        }
    }

    /// Notes that memory was wanting, where something has failed for want of it.
    pub(crate) fn note(&mut self, has_failed: bool) {
        if has_failed {
            self.lacks_memory = true;
        }
    }

    /// Notes that a step is none.
    pub(crate) fn refuse(&mut self) {
        self.is_refused = true;
    }

    /// Whether rows are played no further.
    pub(crate) fn has_stopped(&self) -> bool {
        self.lacks_memory || self.is_refused
    }

    /// Prints why rows are played no further, where they are not.
    pub(crate) fn end(&mut self) {
        if self.lacks_memory {
            self.put("NoMemory\n");
        } else if self.is_refused {
            self.put("NoStep\n");
        }
    }

    /// Prints a text.
    pub(crate) fn put(&mut self, text: &str) {
        let has_failed = self.text.push_str(text).is_err();
        self.note(has_failed);
    }

    /// Prints texts.
    pub(crate) fn put_all(&mut self, texts: &[&str]) {
        for text in texts {
            self.put(*text);
        }
    }

    // Prints a text and a number behind it.
    fn put_number(&mut self, text: &str, number: u64) {
        let has_failed = write!(self.text, "{text}{number}").is_err();
        self.note(has_failed);
    }

    /// Prints numbers, each behind a text, and a text behind all.
    pub(crate) fn put_numbers(&mut self, numbers: &[(&str, u64)], behind: &str) {
        for (text, number) in numbers {
            self.put_number(*text, *number);
        }
        self.put(behind);
    }

    /// Prints whether a fact holds, and ends the line.
    pub(crate) fn put_fact(&mut self, holds: bool) {
        self.put(if holds { "true\n" } else { "false\n" });
    }

    /// Puts bytes behind those of the file that a step makes.
    pub(crate) fn make(&mut self, bytes: &[u8]) {
        let has_failed = self.made.extend_from_slice(bytes).is_err();
        self.note(has_failed);
    }
}
