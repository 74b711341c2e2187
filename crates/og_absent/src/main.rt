//! The program `og` over a file that is not there. It ends with status 3, and writes nothing.
#![tactic(auto)]

use std::process::ExitCode;

fn main(rt: HostRuntime) -> ExitCode {
    og_outside::run(&rt)
}
