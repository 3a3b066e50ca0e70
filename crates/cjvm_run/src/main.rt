//! The program `cjvm`.
#![tactic(auto)]

use one_jvm::run_process;
use std::process::ExitCode;

fn main(rt: HostRuntime) -> ExitCode {
    run_process(&rt)
}
