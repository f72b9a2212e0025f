//! The start of the program: real files, standard output as `out`, standard error as notes, and the status that the run answers.
ghost use Rattle.std.specs.Prelude.{◌≡◌, ◌⊎◌, ◌<◌, ◌≤◌, None, map, string_bytes};
ghost use Rattle.std.specs.Process.{exit_status};
ghost use Rattle.loc_top.specs.Run.{course_of};

use crate::top::run;
use loc_geom::Steps;
use loc_io::{FileShelf, StdSink};
use std::alloc::Global;
use std::marker::Brand;
use std::process::ExitCode;
use std::sync::ledger::{Blank, Ledger};
use std::{env, io};

// Want of memory for the words, before a run begins.
const NO_MEMORY: u8 = 5;

// The status of a run over real files, whose count of steps has this name.
fn start<L: Ledger>(rt: &HostRuntime, alloc: Global, words: &[String], blank: Blank) -> u8
    requires name { blank.name ≡ L.name }
    requires parts { blank.parts ≡ L.parts }
    requires some { 0 < L.parts }
    ensures range { result ≤ 5 }
    ensures only_refused { result ≡ 2 → course_of (map string_bytes words.now) ≡ None }
    ensures refused { course_of (map string_bytes words.now) ≡ None → (result ≡ 2) ⊎ (result ≡ 5) }
{
    let out = rt.stdout();
    let err = rt.stderr();
    let mut shelf = FileShelf::new(rt);
    let mut sink = StdSink::new(io::writer(&out));
    let mut notes = StdSink::new(io::writer(&err));
    let mut steps = Steps::<L>::new(blank);
    run(alloc, words, &mut shelf, &mut sink, &mut notes, &mut steps)
}

// The words behind the program's own name. Words that are not UTF-8 are no command, as no words are.
fn words(rt: &HostRuntime, alloc: Global) -> Option<Vec<String>> {
    match env::args(rt) {
        Ok(args) => args.skip(1).collect(alloc).ok(),
        Err(error) if error.kind() == io::ErrorKind::OutOfMemory => None,
        Err(_) => Some(Vec::new(alloc)),
    }
}

/// The status of a run of these words over real files, standard output and standard error.
pub fn status_of(rt: &HostRuntime, words: &[String]) -> u8
    ensures range { result ≤ 5 }
    ensures only_refused { result ≡ 2 → course_of (map string_bytes words.now) ≡ None }
    ensures refused { course_of (map string_bytes words.now) ≡ None → (result ≡ 2) ⊎ (result ≡ 5) }
{
    start::<Brand>(rt, rt.alloc(), words, Blank::new(1))
}

/// Runs the program's own words, and ends with the status of that run.
pub fn answer(rt: &HostRuntime) -> ExitCode
    ensures { exit_status result ≤ 5 }
{
    match words(rt, rt.alloc()) {
        Some(words) => ExitCode::from(status_of(rt, words.as_slice())),
        None => ExitCode::from(NO_MEMORY),
    }
}
