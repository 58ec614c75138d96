//! The program `config`: the words of its command line, and its standard input and output.
#![tactic(auto)]

use pc_io::{StdSink, StdSource};
use pc_top::{Status, run};
use std::process::ExitCode;
use std::{env, io};

/// Does the job that the words after the program's name tell, and ends with its status.
fn main(rt: HostRuntime) -> ExitCode {
    let words = match words_of(&rt) {
        Ok(words) => words,
        Err(error) if error.kind() == io::ErrorKind::InvalidData => return ExitCode::from(
            Status::WrongWords.code(),
        ),
        Err(_) => return ExitCode::from(Status::NoMemory.code()),
    };
    let mut source = StdSource::new(rt.stdin());
    let mut sink = StdSink::new(rt.stdout());
    ExitCode::from(run(rt.alloc(), &words, &mut source, &mut sink))
}

/// The words after the program's name.
fn words_of(rt: &HostRuntime) -> io::Result<Vec<Vec<u8>>> {
    let mut words = Vec::new(rt.alloc());
    for word in env::args(rt)?.skip(1) {
        words.push(word.into_bytes())?;
    }
    Ok(words)
}
