//! The program `cjvm` again, for a stored run of javac's file, with the version 46, that ends in a
//! deadlock: its main thread waits, and the other one has ended by an exception.
#![tactic(auto)]

use one_jvm::run_process;
use std::process::ExitCode;

fn main(rt: HostRuntime) -> ExitCode {
    run_process(&rt)
}
