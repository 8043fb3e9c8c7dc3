//! Runs the program on each script of the folders here, and compares what it does with the texts beside the script. Each case has a
//! line, which says what was compared.
#![tactic(auto)]

mod cases;
mod folders;
mod runs;
mod texts;

use folders::{Counts, check_folders};
use std::io;
use std::process::ExitCode;

fn main(rt: HostRuntime) -> io::Result<ExitCode> {
    let mut counts = Counts { cases: 0, wrong: 0 };
    check_folders(&rt, &mut counts)?;
    println!(rt; "{} cases, {} wrong", counts.cases, counts.wrong)?;
    if counts.wrong == 0 {
        Ok(ExitCode::SUCCESS)
    } else {
        Ok(ExitCode::FAILURE)
    }
}
