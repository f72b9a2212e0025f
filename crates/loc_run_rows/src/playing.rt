//! Steps of a row that run words and print what is left, or that compare files, or out of the last run with one.

use crate::escapes::put_escaped;
use crate::hostile::number_at;
use crate::making::cut;
use crate::page::Page;
use crate::stage::Stage;

// Prints the lines of a text behind a mark; a last line without an end has a backslash behind it.
fn show(page: &mut Page, mark: &str, bytes: &[u8]) {
    let mut begins = true;
    for byte in bytes {
        if begins {
            page.put(mark);
        }
        begins = *byte == b'\n';
        if begins {
            page.put("\n");
        } else {
            put_escaped(page, *byte);
        }
    }
    if !begins {
        page.put("\\\n");
    }
}

// Prints the file that a run has made: its name, and what it says that it has.
fn show_made(page: &mut Page, name: &str, index: &[u8]) {
    page.put_all(&["made ", name, ": "]);
    let numbers = [
        ("", number_at(page, index, 16) as u64),
        (" features, ", number_at(page, index, 20) as u64),
        (" corners, ", number_at(page, index, 24) as u64),
        (" edges, ", number_at(page, index, 36) as u64),
    ];
    page.put_numbers(&numbers, " nodes\n");
}

// Prints the file that the last run has made, if there is one.
fn show_file(page: &mut Page, stage: &mut Stage) {
    if stage.note_made(page) {
        let name = stage.last_name();
        let index = stage.bytes(page, name);
        show_made(page, name, index);
    }
}

// Prints what the last run left behind out: its notes, its status, and the file that it has made, if there is one.
fn show_end(page: &mut Page, stage: &mut Stage) {
    show(page, "! ", stage.left.notes.sink.bytes());
    page.put_numbers(&[("status ", stage.left.status as u64)], "\n");
    show_file(page, stage);
}

/// `run WORDS`: what they leave.
pub(crate) fn run(page: &mut Page, stage: &mut Stage, line: &str) {
    let _agrees = stage.play(page, line);
    show(page, "| ", stage.left.out.sink.bytes());
    show_end(page, stage);
}

/// `same WORDS`: whether they leave the same as the last run, and else what they leave.
pub(crate) fn same(page: &mut Page, stage: &mut Stage, line: &str) {
    if stage.play(page, line) {
        page.put("same\n");
        show_file(page, stage);
    } else {
        show(page, "| ", stage.left.out.sink.bytes());
        show_end(page, stage);
    }
}

/// `equal NAME OTHER`: whether two files have the same bytes, and how many the first has.
pub(crate) fn equal(page: &mut Page, stage: &Stage, line: &str) {
    let (name, other) = cut(line);
    let bytes = stage.bytes(page, name);
    let are_equal = bytes == stage.bytes(page, other);
    page.put_numbers(&[("", bytes.len() as u64)], " bytes: ");
    page.put_fact(are_equal);
}

// How many lines begin with a word.
fn count(text: &[u8], word: &[u8]) -> u64 {
    let mut count = 0u64;
    let mut begins = true;
    for at in 0..text.len() {
        if begins && text[at..].starts_with(word) {
            count = count.saturating_add(1);
        }
        begins = text[at] == b'\n';
    }
    count
}

// Prints how many answers of each kind a text has, and how many bytes.
fn show_counts(page: &mut Page, out: &[u8]) {
    let numbers = [
        ("| ", count(out, b"corner")),
        (" corners, ", count(out, b"border")),
        (" borders, ", count(out, b"face")),
        (" faces, ", out.len() as u64),
    ];
    page.put_numbers(&numbers, " bytes\n");
}

/// `brief WORDS`: what they leave, of out no more than how many answers of each kind there are, and how many bytes.
pub(crate) fn brief(page: &mut Page, stage: &mut Stage, line: &str) {
    let _agrees = stage.play(page, line);
    show_counts(page, stage.left.out.sink.bytes());
    show_end(page, stage);
}

// How often a part, again and again, is in front of a text, and whether nothing is behind.
fn copies_in(text: &[u8], part: &[u8]) -> (u64, bool) {
    let mut rest = text;
    let mut found = 0u64;
    for _ in 0..text.len() {
        let Some(behind) = rest.strip_prefix(part) else {
            break;
        };
        rest = behind;
        found = found.saturating_add(1);
    }
    (found, rest.is_empty())
}

/// `copies NAME COUNT`: how often the bytes of a file stand at the front of out of the last run, beside COUNT, and whether nothing is behind.
pub(crate) fn copies(page: &mut Page, stage: &Stage, line: &str) {
    let (name, count) = cut(line);
    let part = stage.bytes(page, name);
    let (found, is_all) = copies_in(stage.out(page), part);
    page.put_numbers(&[("", found)], " copies of ");
    page.put_all(&[count, ": "]);
    page.put_fact(is_all);
}
