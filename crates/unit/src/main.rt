// Reads a file of records from standard input and prints its listing, or the line of the refusal: `run` of `program`.
#![tactic(auto)]

use std::io;

fn main(rt: HostRuntime) -> io::Result<()> {
    program::run(&mut rt.stdin(), &mut rt.stdout())?;
    Ok(())
}
