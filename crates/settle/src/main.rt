// Reads a sheet file from standard input, settles each of its sheets, and prints what it found.
#![tactic(auto)]

use settlement::file::settle;
use std::io;
use std::process::ExitCode;

fn main(rt: HostRuntime) -> anyhow::Result<ExitCode> {
    if settle(rt.alloc(), rt.stdin(), &mut io::writer(&rt))? {
        Ok(ExitCode::SUCCESS)
    } else {
        Ok(ExitCode::FAILURE)
    }
}
