//! The program `og` over a model of more than 65,536 bytes that violates a rule in its last lines. It ends with status 1.
#![tactic(auto)]

use std::process::ExitCode;

fn main(rt: HostRuntime) -> ExitCode {
    og_outside::run(&rt)
}
