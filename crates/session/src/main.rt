// Prints the listing of a session file: of standard input, or of each file that an argument names.
#![tactic(auto)]

use session_file::run;
use std::io::{Read, Write};
use std::{env, fs, io};

// Prints the listing of these bytes.
fn list(rt: &HostRuntime, input: &[u8]) -> io::Result<()> {
    let listing = run(rt.alloc(), input)?;
    rt.stdout().write_all(listing.as_bytes())
}

// What is not listed is told in a line on standard error.
fn told(rt: &HostRuntime, name: &str, listed: io::Result<()>) -> io::Result<()> {
    if let Err(error) = &listed {
        eprintln!(rt; "session: {name}: {error}")?;
    }
    listed
}

// Standard input, whole.
fn list_input(rt: &HostRuntime) -> io::Result<()> {
    let mut bytes = Vec::new(rt.alloc());
    rt.stdin().read_to_end(&mut bytes)?;
    list(rt, bytes.as_slice())
}

// A file by its name.
fn list_file(rt: &HostRuntime, name: &str) -> io::Result<()> {
    let bytes = fs::read(rt, name)?;
    list(rt, bytes.as_slice())
}

// Each file that is named, up to the first that is not listed, or else standard input.
fn main(rt: HostRuntime) -> io::Result<()> {
    let mut names = env::args(&rt)?.skip(1).peekable();
    if names.peek().is_none() {
        return told(&rt, "standard input", list_input(&rt));
    }
    for name in names {
        told(&rt, name.as_str(), list_file(&rt, name.as_str()))?;
    }
    Ok(())
}
