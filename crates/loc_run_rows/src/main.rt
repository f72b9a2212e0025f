//! Rows of runs: words, files, and what `run` leaves of them. The files of data/ have the rows, a step a line; what each step leaves is printed
//! behind it, and has to be what the file `stdout` beside src/ has.
//!
//! `row NAME` begins a row, over a shelf without files. The steps of `making` and `shapes` make files, those of `playing` and `failing` run words:
//! behind `|` stands what is left on out, behind `!` what is left on notes. `ask` asks what no run shows. A line without a step, or whose first
//! word is `#`, is a remark.
#![tactic(auto)]

mod asked;
mod escapes;
mod failing;
mod hostile;
mod making;
mod page;
mod places;
mod playing;
mod runs;
mod shapes;
mod stage;
mod steady;
mod watched;

use crate::asked::ask;
use crate::failing::{failing, pieces};
use crate::making::{cut, make};
use crate::page::Page;
use crate::playing::{brief, copies, equal, run, same};
use crate::runs::words_of;
use crate::stage::Stage;
use loc_top::{answer, status_of};
use std::alloc::Global;
use std::process::ExitCode;
use std::{fs, io};

// The files of rows, in the order in which they are played.
const FILES: [&str; 16] = [
    "layers.rows",
    "words.rows",
    "faces.rows",
    "spans.rows",
    "groups.rows",
    "breaches.rows",
    "features.rows",
    "texts.rows",
    "plane.rows",
    "orders.rows",
    "indexes.rows",
    "failing.rows",
    "pieces.rows",
    "limits.rows",
    "generated.rows",
    "asked.rows",
];

// Plays a step.
fn play(page: &mut Page, stage: &mut Stage, verb: &str, rest: &str) {
    match verb {
        "" | "#" => {}
        "row" => *stage = Stage::new(page, stage.alloc),
        "run" => run(page, stage, rest),
        "same" => same(page, stage, rest),
        "brief" => brief(page, stage, rest),
        "copies" => copies(page, stage, rest),
        "equal" => equal(page, stage, rest),
        "failing" => failing(page, stage, rest),
        "pieces" => pieces(page, stage, rest),
        "ask" => ask(page, stage, rest),
        _ => make(page, stage, verb, rest),
    }
}

// The page of a file of rows: its name, each of its steps behind its own line, and why they are played no further, where they are not.
fn played(alloc: Global, name: &str, text: &str) -> String {
    let mut page = Page::new(alloc);
    let mut stage = Stage::new(&mut page, alloc);
    page.put_all(&["# ", name, "\n"]);
    for line in text.lines() {
        page.put_all(&[line, "\n"]);
        let (verb, rest) = cut(line);
        play(&mut page, &mut stage, verb, rest);
        if page.has_stopped() {
            break;
        }
    }
    page.end();
    page.text
}

// Plays the files of rows, and prints what their steps leave.
fn play_files(rt: &HostRuntime) -> io::Result<()> {
    for name in &FILES {
        let text = fs::read_to_string(rt, *name)?;
        let page = played(rt.alloc(), *name, text.as_str());
        rt.print(page.as_str())?;
    }
    Ok(())
}

// Words that are no command.
const NO_COMMAND: &str = "query layer.wkt";

// Runs words that are no command, and prints their status.
fn show_refused(rt: &HostRuntime, page: &mut Page) {
    let words = words_of(page, rt.alloc(), NO_COMMAND);
    let status = status_of(rt, words.as_slice());
    page.put_all(&["# ", NO_COMMAND]);
    page.put_numbers(&[(": status ", status as u64)], "\n");
    page.end();
}

// Prints what words leave that are no command.
fn start_refused(rt: &HostRuntime) -> io::Result<()> {
    let mut page = Page::new(rt.alloc());
    show_refused(rt, &mut page);
    rt.print(page.text.as_str())
}

// The status of a program that could not read its rows, or print.
const NOT_PRINTED: u8 = 99;

fn main(rt: HostRuntime) -> ExitCode {
    if play_files(&rt).is_err() || start_refused(&rt).is_err() {
        return ExitCode::from(NOT_PRINTED);
    }
    answer(&rt)
}
