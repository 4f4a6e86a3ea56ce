//! - **What it is**: the program `ltm`. `main` only makes the real folder, input and output and calls `run`, whose
//!   contract is that of the whole program, or `run_alone` for a command that can do without threads: that call waits for nobody.
//! - **On what it stands**: `ltm_program`, which has `run`, `ltm_io` for the real ends, and `ltm_command` for the exit statuses.
//! - **What a call costs**: what `run` costs.
//! - **When to change it here**: when the program meets another end of the system. All else stands in `ltm_program`.
#![tactic(auto)]

use ltm_command::Status;
use ltm_io::{DiskFolder, RealInput, RealOutput};
use ltm_program::{may_wait, run, run_alone};
use ltm_workers::PlainGate;
use std::process::ExitCode;
use std::{env, io};

/// The exit status where the process is not given its words.
fn without_words(fault: &io::Error) -> u8 {
    if fault.kind() == io::ErrorKind::OutOfMemory {
        Status::NoMemory.number()
    } else {
        1
    }
}

fn main(rt: HostRuntime) -> ExitCode {
    let args = match env::args(&rt) {
        Ok(args) => args,
        Err(fault) => return ExitCode::from(without_words(&fault)),
    };
    let alloc = rt.alloc();
    let mut words = Vec::new(alloc);
    for word in args.skip(1) {
        if words.push(word).is_err() {
            return ExitCode::from(Status::NoMemory.number());
        }
    }
    let mut folder = DiskFolder::new(&rt);
    let mut output = RealOutput::new(io::writer(&rt));
    let mut input = RealInput::new(rt.reader());
    let words = words.as_slice();
    let status = if may_wait(words) {
        run(
            &rt,
            alloc,
            words,
            &mut folder,
            &mut input,
            &mut output,
            &PlainGate,
        )
    } else {
        run_alone(&rt, alloc, words, &mut folder, &mut input, &mut output)
    };
    ExitCode::from(status.number())
}
