// A session: the line that is being read, and the node that is played.
use crate::bad_line::BadLine;
use crate::command::{Command, Told};
use crate::report::write_sent;
use crate::switches::{AnyPlayer, SwitchKind};
use node::Role;
use outbox::Outbox;
use settings::{Draft, Settings};
use std::alloc::Global;
use std::io::Write;
use words::Words;

#[derive(Drop)]
pub struct Session {
    line: Vec<u8>,
    number: u64,
    player: Option<AnyPlayer>,
}

impl Session {
    pub fn new(heap: Global) -> Session {
        Session {
            line: Vec::new(heap),
            number: 0,
            player: None,
        }
    }

    // Takes the next characters of the input, and plays the lines that end in them.
    pub fn feed<W: Write>(&mut self, characters: &[u8], out: &mut W) -> anyhow::Result<()> {
        for c in characters {
            if *c == b'\n' {
                self.end_line(out)?;
            } else {
                self.line.push(*c)?;
            }
        }
        Ok(())
    }

    // Plays the line, and begins the next one.
    pub fn end_line<W: Write>(&mut self, out: &mut W) -> anyhow::Result<()> {
        self.number = self.number.saturating_add(1);
        let words = Words::of(self.line.as_slice());
        if words.count() > 0 {
            match Command::try_from(words) {
                Ok(command) => self.obey(command, out)?,
                Err(bad) => self.complain(bad, out)?,
            }
        }
        self.line.clear();
        Ok(())
    }

    fn complain<W: Write>(&self, bad: BadLine, out: &mut W) -> anyhow::Result<()> {
        let number = self.number;
        writeln!(out, "! line {number}: {bad}")?;
        Ok(())
    }

    fn obey<W: Write>(&mut self, command: Command, out: &mut W) -> anyhow::Result<()> {
        match command {
            Command::Make { role, kind, draft } => self.make(role, kind, draft, out),
            Command::Tell(told) => self.tell(&told, out),
        }
    }

    // A new node takes the place of the earlier one, which stays where the new one is refused.
    fn make<W: Write>(
        &mut self,
        role: Role,
        kind: SwitchKind,
        draft: Draft,
        out: &mut W,
    ) -> anyhow::Result<()> {
        // what is printed is 0 or the number of the refusal
        let answer = match Settings::try_from(draft) {
            Ok(settings) => {
                self.player = Some(AnyPlayer::new(kind, role, settings));
                0
            }
            Err(refusal) => refusal.number(),
        };
        write!(out, "{answer}")?;
        if let Some(player) = &self.player {
            let seen = player.seen();
            write!(out, "{seen}")?;
        }
        writeln!(out)?;
        Ok(())
    }

    fn tell<W: Write>(&mut self, told: &Told, out: &mut W) -> anyhow::Result<()> {
        let Some(player) = self.player.as_mut() else {
            return self.complain(BadLine::NoNode, out);
        };
        let mut sent = Outbox::new();
        let (number, passed) = match player.tell(told, &mut sent) {
            Ok(passed) => (0, passed),
            Err(refusal) => (refusal.number(), None),
        };
        let seen = player.seen();
        write!(out, "{number}{seen}")?;
        write_sent(out, &sent)?;
        if let Some(port) = passed {
            write!(out, "; passed {port}")?;
        }
        writeln!(out)?;
        Ok(())
    }
}
