//! The program: it hands its words, a shelf over real files and a sink over standard output to the top call, and ends
//! with the status that comes back. What it trusts of the outside is all in the two adapters.
#![tactic(auto)]

mod file_shelf;
mod out_sink;

use diag_top::{OpenGate, Status, run};
use file_shelf::FileShelf;
use out_sink::OutSink;
use std::process::ExitCode;
use std::{env, io};

fn main(rt: HostRuntime) -> ExitCode {
    let mut shelf = FileShelf::new(rt);
    let mut sink = OutSink::new(rt.stdout());
    let status = match words(&rt) {
        Ok(words) => run(
            &rt,
            rt.alloc(),
            words.as_slice(),
            &mut shelf,
            &mut sink,
            &OpenGate,
        ),
        // Words that aren't text are no words of the grammar.
        Err(error) if error.kind() == io::ErrorKind::InvalidData => {
            run(&rt, rt.alloc(), &[], &mut shelf, &mut sink, &OpenGate)
        }
        Err(_) => Status::Memory,
    };
    ExitCode::from(status.code())
}

/// The words after the program's name.
fn words(rt: &HostRuntime) -> io::Result<Vec<String>> {
    let words = env::args(rt)?.skip(1).collect(rt.alloc())?;
    Ok(words)
}

#[cfg(test)]
mod tests;
