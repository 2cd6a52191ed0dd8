// Runs each file that an argument names as `walk` runs its input, under a line with the file's name.
#![tactic(auto)]

use std::fs::File;
use std::{env, io};

fn run_file(rt: &HostRuntime, path: &str) -> io::Result<()> {
    println!(rt; "{path}")?;
    match File::open(rt, path) {
        Ok(mut input) => walking::run(&mut input, &mut rt.stdout()),
        Err(error) => eprintln!(rt; "{path}: {error}")?,
    }
    Ok(())
}

fn main(rt: HostRuntime) -> io::Result<()> {
    for path in env::args(&rt)?.skip(1) {
        run_file(&rt, path.as_str())?;
    }
    Ok(())
}
