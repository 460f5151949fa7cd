//! The compiler over files, standard output and standard error.
#![tactic(auto)]

mod adapters;
mod status;
mod ways;

use adapters::{FileLibrary, Writing};
use dc_types::Status;
use status::number_of;
use std::alloc::{AllocError, Global};
use std::env;
use std::io::ErrorKind;
use std::process::ExitCode;
use ways::compile;

/// The words after the program's name. Where one of them is no UTF-8 there are none.
fn words(rt: &HostRuntime, alloc: Global) -> Result<Vec<String>, AllocError> {
    let mut words = Vec::new(alloc);
    let all = match env::args(rt) {
        Ok(all) => all,
        Err(error) if error.kind() == ErrorKind::OutOfMemory => return Err(AllocError),
        Err(_) => return Ok(words),
    };
    for word in all.skip(1) {
        words.push(word)?;
    }
    Ok(words)
}

fn main(rt: HostRuntime) -> ExitCode {
    let alloc = rt.alloc();
    let Ok(words) = words(&rt, alloc) else {
        return ExitCode::from(number_of(Status::NoMemory));
    };
    let mut out = Writing::new(rt.stdout());
    let mut report = Writing::new(rt.stderr());
    let mut lib = FileLibrary::new(rt);
    let status = compile(alloc, &words, &mut lib, &mut out, &mut report);
    ExitCode::from(number_of(status))
}
