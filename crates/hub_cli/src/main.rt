//! The program `iodef-hub`: `hub_program` with the process's own words, streams, files and sockets.
#![tactic(auto)]

use hub_program::cli_start;
pub use hub_program::{cli_run, serve_count};
use std::process::ExitCode;
use std::{env, io};

fn main(rt: HostRuntime) -> ExitCode {
    let mut reader = rt.reader();
    let mut writer = io::writer(&rt);
    let mut errors = rt.stderr();
    let status = cli_start(&rt, env::args(&rt), &mut reader, &mut writer, &mut errors);
    ExitCode::from(status.code())
}
