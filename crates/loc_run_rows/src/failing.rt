//! Each call of the outside failing in turn: the status and the line are those of the cause, what was written is a front of what the whole
//! run writes, and behind the failure no further call of the shelf or of out is made. And calls that take few bytes, where all is left that the whole run leaves.

ghost use Rattle.std.specs.Prelude.{◌<◌};

use crate::escapes::put_escaped;
use crate::page::Page;
use crate::runs::Left;
use crate::stage::Stage;

// The file that a run has made, or nothing where there is none: `build` and `upgrade` make the third of their words.
fn made<'a>(words: &[String], left: &'a Left) -> Option<&'a [u8]> {
    match words {
        [command, _, name, ..] if matches!(command.as_str(), "build" | "upgrade") => {
            left.shelf.files.bytes(name.as_str())
        }
        _ => None,
    }
}

// How bytes stand to those of the whole run.
fn front_of(whole: &[u8], bytes: &[u8]) -> &'static str {
    if bytes == whole {
        "all"
    } else if whole.starts_with(bytes) {
        "a front"
    } else {
        "other bytes"
    }
}

// How what was made stands to what the whole run makes.
fn front_of_made(whole: Option<&[u8]>, made: Option<&[u8]>) -> &'static str {
    match (whole, made) {
        (_, None) => "nothing",
        (Some(whole), Some(made)) => front_of(whole, made),
        (None, Some(_)) => "other bytes",
    }
}

// Prints which calls fail, and what they left beside what the whole run left.
fn show_outcome(page: &mut Page, words: &[String], whole: &Left, left: &Left, calls: [u64; 3]) {
    let [shelf, out, notes] = calls;
    let numbers = [
        ("fail ", shelf),
        (" ", out),
        (" ", notes),
        (": status ", left.status as u64),
        (", ", left.shelf.calls),
        (" calls of the shelf, ", left.out.calls),
    ];
    page.put_numbers(&numbers, " of out; ");
    let out = front_of(whole.out.sink.bytes(), left.out.sink.bytes());
    let made = front_of_made(made(words, whole), made(words, left));
    page.put_all(&["out has ", out, ", made is ", made, ", notes "]);
    for byte in left.notes.sink.bytes() {
        put_escaped(page, *byte);
    }
    page.put("\n");
}

// Runs the words where calls fail, and prints what is left, beside the whole run.
fn show_fault(page: &mut Page, stage: &Stage, whole: &Left, calls: [u64; 3]) {
    let left = stage.trial(page, calls, 0);
    show_outcome(page, &stage.words, whole, &left, calls);
}

// Lets each call of the shelf, of out or of notes fail in turn, and one more than the whole run makes.
fn show_each(page: &mut Page, stage: &Stage, whole: &Left, outside: usize)
    requires { outside < 3 }
{
    let made = [whole.shelf.calls, whole.out.calls, whole.notes.calls];
    let mut calls = [0; 3];
    for passed in 0..=made[outside] {
        calls[outside] = passed.saturating_add(1);
        show_fault(page, stage, whole, calls);
    }
}

// Prints what each fault leaves beside a run without one.
fn show_all(page: &mut Page, stage: &Stage, whole: &Left) {
    show_fault(page, stage, whole, [0; 3]);
    for outside in 0..3 {
        show_each(page, stage, whole, outside);
    }
    show_fault(page, stage, whole, [1, 0, 1]);
    show_fault(page, stage, whole, [0, 1, 1]);
}

/// `failing WORDS`: what is left where each call of the shelf, of out and of notes fails in turn, and where the first of notes fails beside
/// another.
pub(crate) fn failing(page: &mut Page, stage: &mut Stage, line: &str) {
    stage.take_words(page, line);
    let whole = stage.trial(page, [0; 3], 0);
    show_all(page, stage, &whole);
}

// Prints whether all is left that the whole run leaves, and the same file made, where a call takes so many bytes at most.
fn show_piece(page: &mut Page, words: &[String], whole: &Left, left: &Left, most: usize) {
    let numbers = [
        ("at most ", most as u64),
        (" bytes: ", left.shelf.calls),
        (" calls of the shelf, ", left.out.calls),
    ];
    page.put_numbers(&numbers, " of out; the same: ");
    page.put_fact(left.is_same(whole) && made(words, left) == made(words, whole));
}

// Runs the words where a call takes so many bytes at most, and prints what is left, beside the whole run.
fn show_pieces(page: &mut Page, stage: &Stage, whole: &Left, most: usize) {
    let left = stage.trial(page, [0; 3], most);
    show_piece(page, &stage.words, whole, &left, most);
}

/// `pieces WORDS`: whether the same is left where a call takes few bytes.
pub(crate) fn pieces(page: &mut Page, stage: &mut Stage, line: &str) {
    stage.take_words(page, line);
    let whole = stage.trial(page, [0; 3], 0);
    for most in [0, 1, 2, 3, 5, 7, 100] {
        show_pieces(page, stage, &whole, most);
    }
}
