//! The program `iodef-redact`: `redact_program` with the process's own words and streams.
#![tactic(auto)]

use redact_program::cli_start;
use std::process::ExitCode;
use std::{env, io};

fn main(rt: HostRuntime) -> ExitCode {
    let mut reader = rt.reader();
    let mut writer = io::writer(&rt);
    let mut errors = rt.stderr();
    let status = cli_start(&rt, env::args(&rt), &mut reader, &mut writer, &mut errors);
    ExitCode::from(status.code())
}
