// Plays one node: reads commands from standard input, one a line, and prints what the node answers, is and sends.
#![tactic(auto)]

mod arguments;
mod bad_line;
mod command;
mod player;
mod report;
mod session;
mod switches;

use session::Session;
use std::io::{BufWriter, Read, Write};

fn main(rt: HostRuntime) -> anyhow::Result<()> {
    run(&rt)
}

fn run(rt: &HostRuntime) -> anyhow::Result<()> {
    let mut out = BufWriter::new(rt.alloc(), rt.stdout())?;
    let mut input = rt.stdin();
    let mut session = Session::new(rt.alloc());
    let mut chunk = [0; 65536];
    // In chunks, and not by `read_until`: that reads a terminal once more after its end where the last line has no line feed,
    // and keeps the line feed with the line. Every loop has an end.
    for _ in 0..u64::MAX {
        let n = input.read(&mut chunk)?;
        if n == 0 {
            break;
        }
        session.feed(&chunk[..n], &mut out)?;
    }
    session.end_line(&mut out)?;
    out.flush()?;
    Ok(())
}
