// The program csalgodes: letters, desks and trays as files.
#![tactic(auto)]

use crate::running::csalgodes_run;
use ending::written;
use std::process::ExitCode;

mod running;

fn main(rt: HostRuntime) -> ExitCode {
    ExitCode::from(written(csalgodes_run(&rt)))
}
