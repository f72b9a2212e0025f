//! The top call: the words, the command, the status and the line on notes.

ghost use Rattle.std.specs.Prelude.{◌≡◌, ◌≤◌, Some, IfSome, map, string_bytes};
ghost use Rattle.loc_io.specs.Streams.{InTime};
ghost use Rattle.loc_words.specs.Words.{AskedAsk, AskedBuild, AskedEdges, AskedFeatures, AskedLayer, AskedQuery, AskedStab, AskedUpgrade, AskedVerify, ask, build, command_of, dissolve, edges, features, query, stab, upgrade, valid, verify};
ghost use Rattle.loc_breaches.specs.Judges.{Judges};
ghost use Rattle.loc_course.specs.Runs.{over};
ghost use Rattle.loc_features.specs.FeaturesTold.{FeaturesTold};
ghost use Rattle.loc_groups.specs.Dissolves.{Dissolves};
ghost use Rattle.loc_indexed.specs.Asks.{Asks};
ghost use Rattle.loc_indexed.specs.Builds.{Builds};
ghost use Rattle.loc_indexed.specs.Verifies.{Verifies};
ghost use Rattle.loc_query.specs.Headline.{Headline};
ghost use Rattle.loc_reach.specs.Stabs.{Stabs};
ghost use Rattle.loc_upgrade.specs.TellsEdges.{TellsEdges};
ghost use Rattle.loc_upgrade.specs.Upgrades.{Upgrades};
ghost use Rattle.loc_top.specs.Run.{BesideCourse, FilesOf, Leaves, Ran, RefusesWords, RunSentences, course_of, file_of};

use crate::commands::run_command;
use loc_course::{Stop, report, write_text};
use loc_geom::Steps;
use loc_io::{Shelf, Sink};
use loc_words::{WordsFault, command_of, usage_text};
use std::alloc::Global;
use std::sync::ledger::Ledger;

// Runs the command that the words are.
fn run_course<F: Shelf, O: Sink, N: Sink, L: Ledger>(
    alloc: Global,
    words: &[String],
    shelf: &mut F,
    out: &mut O,
    notes: &mut N,
    steps: &mut Steps<L>,
) -> u8
    ensures ran { Leaves (Ran (course_of (map string_bytes words.now)))
        F.meaning shelf O.meaning out steps N.meaning notes result }
    ensures beside { IfSome (command_of (map string_bytes words.now))
        (λ asked. BesideCourse asked (F.meaning shelf.old) (F.meaning shelf.new) result) }
    ensures notes_in_time { InTime (N.meaning notes.old) (N.meaning notes.new) }
{
    match command_of(alloc, words) {
        Ok(command) => {
            let outcome = run_command(alloc, command, shelf, out, steps);
            report(outcome, notes)
        }
        Err(WordsFault::Refused) => {
            let _ = write_text(notes, usage_text().as_bytes());
            2
        }
        Err(WordsFault::NoMemory) => report(Err(Stop::NoMemory), notes),
    }
}

/// Runs the command that the words are.
pub fn run<F: Shelf, O: Sink, N: Sink, L: Ledger>(
    alloc: Global,
    words: &[String],
    shelf: &mut F,
    out: &mut O,
    notes: &mut N,
    steps: &mut Steps<L>,
) -> u8
    ensures headline { (asked : AskedQuery) → command_of (map string_bytes words.now) ≡ Some (query asked)
        → Leaves (Headline asked.index asked.order asked.faces (file_of asked.layer) asked.points)
        F.meaning shelf O.meaning out steps N.meaning notes result }
    ensures features { (asked : AskedFeatures) → command_of (map string_bytes words.now) ≡ Some (features asked)
        → Leaves (FeaturesTold (file_of asked.layer) asked.points)
        F.meaning shelf O.meaning out steps N.meaning notes result }
    ensures asks { (asked : AskedAsk) → command_of (map string_bytes words.now) ≡ Some (ask asked)
        → Leaves (Asks asked.index asked.points)
        F.meaning shelf O.meaning out steps N.meaning notes result }
    ensures builds { (asked : AskedBuild) → command_of (map string_bytes words.now) ≡ Some (build asked)
        → Leaves (Builds (file_of asked.layer) asked.index)
        F.meaning shelf O.meaning out steps N.meaning notes result }
    ensures verifies { (asked : AskedVerify) → command_of (map string_bytes words.now) ≡ Some (verify asked)
        → Leaves (Verifies asked.index)
        F.meaning shelf O.meaning out steps N.meaning notes result }
    ensures upgrades { (asked : AskedUpgrade) → command_of (map string_bytes words.now) ≡ Some (upgrade asked)
        → Leaves (Upgrades asked.old asked.new)
        F.meaning shelf O.meaning out steps N.meaning notes result }
    ensures edges { (asked : AskedEdges) → command_of (map string_bytes words.now) ≡ Some (edges asked)
        → Leaves (TellsEdges asked.index)
        F.meaning shelf O.meaning out steps N.meaning notes result }
    ensures stabs { (asked : AskedStab) → command_of (map string_bytes words.now) ≡ Some (stab asked)
        → Leaves (Stabs (file_of asked.layer) asked.spans)
        F.meaning shelf O.meaning out steps N.meaning notes result }
    ensures judges { (asked : AskedLayer) → command_of (map string_bytes words.now) ≡ Some (valid asked)
        → Leaves (Judges (file_of asked))
        F.meaning shelf O.meaning out steps N.meaning notes result }
    ensures dissolves { (asked : AskedLayer) → command_of (map string_bytes words.now) ≡ Some (dissolve asked)
        → Leaves (Dissolves (file_of asked))
        F.meaning shelf O.meaning out steps N.meaning notes result }
    ensures ran { Leaves (Ran (course_of (map string_bytes words.now)))
        F.meaning shelf O.meaning out steps N.meaning notes result }
    ensures sentences { Leaves (RunSentences (command_of (map string_bytes words.now)))
        F.meaning shelf O.meaning out steps N.meaning notes result }
    ensures refuses_words { Leaves (RefusesWords (course_of (map string_bytes words.now)))
        F.meaning shelf O.meaning out steps N.meaning notes result }
    ensures files { over (FilesOf (command_of (map string_bytes words.now)))
        F.meaning shelf O.meaning out steps result }
    ensures range { result ≤ 5 }
{
    run_course(alloc, words, shelf, out, notes, steps)
}
