//! The program. Its lines stand in `loc_top`, which the program of rows shares.
#![tactic(auto)]

use loc_top::answer;
use std::process::ExitCode;

fn main(rt: HostRuntime) -> ExitCode {
    answer(&rt)
}
