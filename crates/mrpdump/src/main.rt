// Reads frames from standard input, one a line as hexadecimal octets, and prints the fields or the refusal of each.
#![tactic(auto)]

mod progress;

use progress::Dump;
use std::io::{BufWriter, Read, Write};

fn main(rt: HostRuntime) -> anyhow::Result<()> {
    run(&rt)
}

fn run(rt: &HostRuntime) -> anyhow::Result<()> {
    let mut out = BufWriter::new(rt.alloc(), rt.stdout())?;
    let mut input = rt.stdin();
    let mut dump = Dump::new(rt.alloc())?;
    let mut chunk = [0; 65536];
    // In chunks, so that a line of any length takes no more memory: over `bytes()`, one octet at a time, a million frames took
    // 3.7 s in place of 2.2 s. Every loop has an end.
    for _ in 0..u64::MAX {
        let n = input.read(&mut chunk)?;
        if n == 0 {
            break;
        }
        dump.feed(&chunk[0..n], &mut out)?;
    }
    dump.end_line(&mut out)?;
    dump.summary(&mut out)?;
    out.flush()?;
    Ok(())
}
