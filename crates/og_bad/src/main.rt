//! The program `og` over a good model and a text that is no program. It ends with status 6.
#![tactic(auto)]

use std::process::ExitCode;

fn main(rt: HostRuntime) -> ExitCode {
    og_outside::run(&rt)
}
