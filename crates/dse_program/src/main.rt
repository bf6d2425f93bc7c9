//! The program `dse`: it hands its words, the real files and the tools that measure to the top call, and ends with the
//! status of its answer.
#![tactic(auto)]

use desk_io::RealDesk;
use dse_run::{Status, run};
use evaluators::{Evaluator, HopSum, Lateness, Makespan, PeakLoad};
use std::alloc::AllocError;
use std::env;
use std::io::ErrorKind;
use std::process::ExitCode;
use std::rt::{Env, Files};

/// The words of the command line, without the program's name. Where they can't be had, the status to end with.
fn words(rt: &(impl Env + AllocGlobal)) -> Result<Vec<String>, Status> {
    let arguments = match env::args(rt) {
        Ok(arguments) => arguments,
        Err(error) if error.kind() == ErrorKind::OutOfMemory => return Err(Status::Memory),
        Err(_) => return Err(Status::Fault),
    };
    let mut words = Vec::new(rt.alloc());
    for word in arguments.skip(1) {
        if words.push(word).is_err() {
            return Err(Status::Memory);
        }
    }
    Ok(words)
}

/// The answer to the words, over the real files and with each tool new.
fn answer(rt: &(impl Files + Print + AllocGlobal), words: &[String]) -> Result<Status, AllocError> {
    let alloc = rt.alloc();
    let mut tools: Vec<Box<dyn Evaluator>> = Vec::new(alloc);
    tools.push(Box::new(alloc, Makespan::new())?)?;
    tools.push(Box::new(alloc, Lateness::new())?)?;
    tools.push(Box::new(alloc, HopSum::new())?)?;
    tools.push(Box::new(alloc, PeakLoad::new())?)?;
    let mut desk = RealDesk::new(rt);
    Ok(run(alloc, words, &mut desk, &mut tools))
}

fn main(rt: HostRuntime) -> ExitCode {
    let status = match words(&rt) {
        Ok(words) => answer(&rt, &words).unwrap_or(Status::Memory),
        Err(status) => status,
    };
    ExitCode::from(status as u8)
}
