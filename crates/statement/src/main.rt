//! The statement program: settles a feed as it arrives on standard input, and writes the statement to
//! standard output.
//!
//! It uses the fixed map, the running rule, and the curve book file `curves.bin` of the folder that it is
//! started in. The rules are the engine's; here are only the streams and the buffers.
#![tactic(auto)]

mod curves_file;
mod house;
mod problem;
mod streams;
mod window;

use curves_file::{read_curves, refuse_curves};
use house::settle_feed;
use problem::Problem;
use std::process::ExitCode;

/// The bytes of the buffer. A pipe holds half as many, so that one read empties it.
const BUFFER: usize = 131_072;

fn run(rt: &HostRuntime) -> Result<(), Problem> {
    let curves = match read_curves(rt)? {
        Ok(curves) => curves,
        Err(fault) => return refuse_curves(rt, fault),
    };
    let mut buffer = vec![in rt.alloc(); 0u8; BUFFER]?;
    settle_feed(
        &mut rt.stdin(),
        &mut rt.stdout(),
        &curves,
        buffer.as_mut_slice(),
    )
}

fn main(rt: HostRuntime) -> ExitCode {
    match run(&rt) {
        Ok(()) => ExitCode::SUCCESS,
        Err(problem) => {
            let _ = eprintln!(rt; "statement: {problem}");
            ExitCode::FAILURE
        }
    }
}
