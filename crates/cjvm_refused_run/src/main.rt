//! The program `cjvm` again, for a stored run that ends with another status than 0. Its file is longer
//! than one read of a file gives, and is a class file only as a whole: javac's, with the version 48.
#![tactic(auto)]

use one_jvm::run_process;
use std::process::ExitCode;

fn main(rt: HostRuntime) -> ExitCode {
    run_process(&rt)
}
