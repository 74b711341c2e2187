//! The program `og` with a word that is no text. It ends with status 2, and writes nothing.
#![tactic(auto)]

use std::process::ExitCode;

fn main(rt: HostRuntime) -> ExitCode {
    og_outside::run(&rt)
}
