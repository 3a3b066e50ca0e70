//! The program `cjvm` again, for a stored run of javac's files, with the version 46: each family of
//! instructions at its edges. `java` writes the same.
#![tactic(auto)]

use one_jvm::run_process;
use std::process::ExitCode;

fn main(rt: HostRuntime) -> ExitCode {
    run_process(&rt)
}
