//! The jobs that users of these crates wait for, each over input that a number determines. The
//! program prints a digest of all results, and no times: `bench/run` times it.
//!
//! Its words are a job, a size and a number below 2^32. Each number gives other input of the same
//! kind and size.
#![tactic(auto)]

mod commands;
mod digest;
mod frames;
mod narrow;
mod numbers;
mod photos;
mod pixels;
mod planes;
mod request;
mod scripts;
mod turns;
mod windows;

use digest::Digest;
use numbers::Numbers;
use request::{Fault, Job, Request, read_request};
use std::alloc::Global;
use std::process::ExitCode;

// Does one job, and adds its results to the digest.
fn do_job(
    alloc: Global,
    job: Job,
    request: Request,
    numbers: &mut Numbers,
    digest: &mut Digest,
) -> Result<(), Fault> {
    match job {
        Job::Pixels => pixels::run(alloc, request.size, numbers, digest),
        Job::Commands => commands::run(alloc, request.size, numbers, digest),
        Job::Windows => windows::run(alloc, request.size, numbers, digest),
        Job::Turns => turns::run(alloc, request.size, numbers, digest),
        Job::Frames => frames::run(alloc, request.size, numbers, digest),
        Job::Narrow => narrow::run(alloc, request.size, numbers, digest),
    }
}

// The digest of the results of the job that the words name, or of all jobs.
fn digest_of(rt: &HostRuntime) -> Result<u64, Fault> {
    let request = read_request(rt)?;
    let mut numbers = Numbers::new(request.seed);
    let mut digest = Digest::new();
    for job in [
        Job::Pixels,
        Job::Commands,
        Job::Windows,
        Job::Turns,
        Job::Frames,
        Job::Narrow,
    ] {
        if request.includes(job) {
            do_job(rt.alloc(), job, request, &mut numbers, &mut digest)?;
        }
    }
    Ok(digest.value())
}

fn main(rt: HostRuntime) -> ExitCode {
    let printed = match digest_of(&rt) {
        Ok(value) => println!(rt; "{value:016x}"),
        Err(Fault::Words) => println!(rt; "words: a job or `all`, `full` or `small`, a number"),
        Err(Fault::Memory) => println!(rt; "out of memory"),
        Err(Fault::Input) => println!(rt; "the input isn't as it was meant"),
    };
    match printed {
        Ok(()) => ExitCode::SUCCESS,
        Err(_) => ExitCode::FAILURE,
    }
}
