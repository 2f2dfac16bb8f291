// Runs the block lister on each file that an argument names: its cases in one crate.

#![tactic(auto)]

use std::fs::File;
use std::rt::Files;
use std::{env, io};

// Lists the image of the file that an argument names, or says why the file cannot be opened.
fn list_file<R: Files + Print + Eprint>(rt: &R, path: &str) -> io::Result<()> {
    match File::open(rt, path) {
        Ok(mut file) => blocks_print::run(&mut file, &mut io::writer(rt)),
        Err(e) => eprintln!(rt; "{path}: {e}"),
    }
}

// Lists the image of each file.
fn main(rt: HostRuntime) -> io::Result<()> {
    for path in env::args(&rt)?.skip(1) {
        list_file(&rt, path.as_str())?;
    }
    Ok(())
}
