// A dump in progress: the line that is being read, what was counted, and the accepted frames.
use clash::History;
use dump::{Tally, Verdict, judge, sighting};
use frame::Received;
use hexline::Line;
use std::alloc::Global;
use std::io::Write;
use text::{FrameText, Octets};

#[derive(Drop)]
pub struct Dump {
    heap: Global,
    line: Line,
    number: usize,
    tally: Tally,
    history: History,
}

impl Dump {
    pub fn new(heap: Global) -> anyhow::Result<Dump> {
        Ok(Dump {
            heap,
            line: Line::new(),
            number: 1,
            tally: Tally::new(),
            history: History::new(heap)?,
        })
    }

    // Takes the next characters of the input, and prints what the lines say that end in them.
    pub fn feed<W: Write>(&mut self, characters: &[u8], out: &mut W) -> anyhow::Result<()> {
        for c in characters {
            if *c == b'\n' {
                self.end_line(out)?;
            } else {
                self.line.feed(*c);
            }
        }
        Ok(())
    }

    // Prints what the line says, and begins the next one.
    pub fn end_line<W: Write>(&mut self, out: &mut W) -> anyhow::Result<()> {
        let line = self.line;
        match judge(&line) {
            Verdict::Blank => {}
            Verdict::NotOctets => {
                self.tally.skip();
                writeln!(out, "- not hexadecimal octets")?;
            }
            Verdict::Read(Err(refusal)) => {
                self.tally.refuse(refusal);
                let number = refusal.number();
                writeln!(out, "{number} {refusal}")?;
            }
            Verdict::Read(Ok(frame)) => self.accept(&frame, out)?,
        }
        self.line = Line::new();
        self.number = self.number.saturating_add(1);
        Ok(())
    }

    fn accept<W: Write>(&mut self, frame: &Received, out: &mut W) -> anyhow::Result<()> {
        self.tally.accept();
        if let Some(seen) = sighting(self.number, frame) {
            self.history.note(seen)?;
        }
        writeln!(out, "0 {}", FrameText(frame))?;
        Ok(())
    }

    // Prints the counts and the clashes.
    pub fn summary<W: Write>(&self, out: &mut W) -> anyhow::Result<()> {
        let accepted = self.tally.accepted;
        writeln!(out, "# frames read: {accepted}")?;
        for (number, count) in self.tally.refused.iter().enumerate() {
            let count = *count;
            if count > 0 {
                writeln!(out, "# refused as {number}: {count}")?;
            }
        }
        let not_octets = self.tally.not_octets;
        writeln!(out, "# lines that are not octets: {not_octets}")?;
        self.clashes(out)
    }

    fn clashes<W: Write>(&self, out: &mut W) -> anyhow::Result<()> {
        for (place, noted) in self.history.noted().iter().enumerate() {
            let mut earlier = self.history.clashes(place).peekable();
            if earlier.peek().is_none() {
                continue;
            }
            let line = noted.seen.line;
            // made once, since a frame may have very many clashes
            let sender = format!(in self.heap; "{}", Octets(&noted.seen.sender))?;
            let sequence = noted.seen.sequence;
            for first in earlier {
                writeln!(
                    out,
                    "# clash: lines {first} and {line} sender={sender} sequence={sequence}"
                )?;
            }
        }
        Ok(())
    }
}
