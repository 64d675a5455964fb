//! Carries out a command line over files, standard output and standard error.
#![tactic(auto)]

use desk_std::System;
use program::carry_out;
use std::process::ExitCode;

fn main(rt: HostRuntime) -> ExitCode {
    let status = carry_out(
        &rt,
        &rt,
        rt.alloc(),
        System::new(&rt),
        rt.stdout(),
        rt.stderr(),
    );
    ExitCode::from(status.code())
}
