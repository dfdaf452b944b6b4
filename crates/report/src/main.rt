// The program `report`, which ends with the number of its report.
#![tactic(auto)]

use std::process::ExitCode;

fn main(rt: HostRuntime) -> ExitCode {
    ExitCode::from(reporting::report_run(&rt))
}
