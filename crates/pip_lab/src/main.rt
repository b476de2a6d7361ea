//! The program of the lab: the command on its command line, over standard input and output.
#![tactic(auto)]

use pip_command_contracts::command_line;
use pip_io::{Gatherer, StdSink, StdSource};
use pip_lab_commands::lab;
use std::process::ExitCode;

fn main(rt: HostRuntime) -> ExitCode {
    let words = match command_line(&rt, rt.alloc()) {
        Ok(words) => words,
        Err(status) => return ExitCode::from(status),
    };
    let mut source = StdSource::new(rt.stdin());
    let mut sink = Gatherer::new(StdSink::new(rt.stdout()));
    ExitCode::from(lab(rt.alloc(), &words, &mut source, &mut sink).status)
}
