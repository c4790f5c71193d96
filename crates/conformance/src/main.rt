//! A program for protobuf's conformance suite to test: answers the requests on standard input, by the descriptor set of the
//! suite's protocol and of the messages that it tests.
#![tactic(auto)]

mod fault_text;
mod frames;
mod reply;
mod stop;
mod testee;

use crate::frames::serve;
use crate::stop::Stop;
use crate::testee::Testee;
use pb_descr::read_set_lenient;
use pb_link::link;
use pb_schema::Pool;
use pb_wire::{Limits, ReadInput, WriteOutput, read_up_to};
use std::process::ExitCode;
use std::{env, fs};

fn main(rt: HostRuntime) -> ExitCode {
    match run(&rt) {
        Ok(()) => ExitCode::SUCCESS,
        Err(stop) => {
            let _ = eprintln!(rt; "conformance: {stop}");
            ExitCode::from(stop.status())
        }
    }
}

fn run(rt: &HostRuntime) -> Result<(), Stop> {
    let words = env::args(rt).map_err(|_| Stop::Usage)?;
    let args: Vec<String> = words.collect(rt.alloc())?;
    let [_, path] = args.as_slice() else {
        return Err(Stop::Usage);
    };
    let pool = read_pool(rt, path.as_str())?;
    let testee = Testee::new(rt.alloc(), &pool)?;
    let mut input = ReadInput::new(rt.stdin());
    let mut output = WriteOutput::new(rt.stdout());
    serve(&testee, &mut input, &mut output)
}

/// The pool of the descriptor set that a file holds.
fn read_pool(rt: &HostRuntime, path: &str) -> Result<Pool, Stop> {
    let mut file = ReadInput::new(fs::open(rt, path).map_err(|_| Stop::File)?);
    let most = Limits::FULL.max_bytes() as usize + 1;
    let set = read_up_to(rt.alloc(), &mut file, most).map_err(|_| Stop::File)?;
    let read = read_set_lenient(rt.alloc(), &set).map_err(|_| Stop::Set)?;
    link(rt.alloc(), &read.files).map_err(|_| Stop::Set)
}
