// The program: a set and its events from standard input, checked and run. What it prints is report's, byte by byte.
#![tactic(auto)]

mod input; // the input, read to its end
mod judging; // the input judged, the verdict written

use judging::{Status, judge};
use std::process::ExitCode;

fn main(rt: HostRuntime) -> ExitCode {
    match judge(&mut rt.stdin(), &mut rt.stdout()) {
        Ok(status) => ExitCode::from(status),
        Err(fault) => {
            let _ = eprintln!(rt; "scrcheck: {fault}");
            ExitCode::from(Status::NoVerdict)
        }
    }
}
