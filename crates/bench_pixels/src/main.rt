//! Jobs on pixels of three cells, on means of pixels, on rows, and on strips. Each goes over input
//! that a number determines. The program prints a digest of all results, and no times: `bench/run`
//! times it.
//!
//! Its words are a job, a size and a number below 2^32. Each number gives other input of the same
//! kind and size.
#![tactic(auto)]

mod digest;
mod means;
mod numbers;
mod photos;
mod pixels;
mod request;
mod rows;
mod strips;

use digest::Digest;
use numbers::Numbers;
use request::{Fault, Job, read_request};
use std::process::ExitCode;

// The digest of the results of the job that the words name, or of all jobs.
fn digest_of(rt: &HostRuntime) -> Result<u64, Fault> {
    let request = read_request(rt)?;
    let mut numbers = Numbers::new(request.seed);
    let mut digest = Digest::new();
    if request.includes(Job::Three) {
        pixels::run(rt.alloc(), request.size, &mut numbers, &mut digest)?;
    }
    if request.includes(Job::Means) {
        means::run(rt.alloc(), request.size, &mut numbers, &mut digest)?;
    }
    if request.includes(Job::Rows) {
        rows::run(rt.alloc(), request.size, &mut numbers, &mut digest)?;
    }
    if request.includes(Job::Equal) {
        rows::compare_long(rt.alloc(), request.size, &mut numbers, &mut digest)?;
    }
    if request.includes(Job::Short) {
        rows::compare_short(rt.alloc(), request.size, &mut numbers, &mut digest)?;
    }
    if request.includes(Job::Strips) {
        strips::run(rt.alloc(), request.size, &mut numbers, &mut digest)?;
    }
    Ok(digest.value())
}

fn main(rt: HostRuntime) -> ExitCode {
    let printed = match digest_of(&rt) {
        Ok(value) => println!(rt; "{value:016x}"),
        Err(Fault::Words) => println!(rt; "words: a job or `all`, `full` or `small`, a number"),
        Err(Fault::Memory) => println!(rt; "out of memory"),
        Err(Fault::Input) => println!(rt; "the input isn't as it was meant"),
    };
    match printed {
        Ok(()) => ExitCode::SUCCESS,
        Err(_) => ExitCode::FAILURE,
    }
}
