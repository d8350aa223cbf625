// The commands for one node, read from the words of a line.
use crate::arguments::{expect_words, take_number, take_port};
use crate::bad_line::BadLine;
use crate::switches::SwitchKind;
use hexline::{Line, Reading, read_line};
use node::Role;
use settings::Draft;
use switch::Port;
use words::Words;

#[derive(Clone, Copy)]
pub enum Command {
    Make {
        role: Role,
        kind: SwitchKind,
        draft: Draft,
    },
    Tell(Told),
}

// What a node is told; the line of a frame has octets.
#[derive(Clone, Copy)]
pub enum Told {
    Link { port: Port, up: bool },
    Frame { port: Port, line: Line },
    Timer { number: u8 },
}

impl TryFrom<Words<'_>> for Command {
    type Error = BadLine;

    fn try_from(mut words: Words<'_>) -> Result<Command, BadLine> {
        match words.take() {
            b"client" => making(Role::Client, words),
            b"manager" => making(Role::Manager, words),
            b"up" => link(true, words),
            b"down" => link(false, words),
            b"frame" => frame(words),
            b"timer" => timer(words),
            _ => Err(BadLine::NoSuchCommand),
        }
    }
}

fn making(role: Role, mut words: Words<'_>) -> Result<Command, BadLine> {
    expect_words(&words, 9)?;
    let kind = SwitchKind::try_from(words.take())?;
    let draft = draft(role, &mut words)?;
    Ok(Command::Make { role, kind, draft })
}

// Five intervals and three counts; 65,535, which stands for all above it, is outside every limit.
fn draft(role: Role, words: &mut Words<'_>) -> Result<Draft, BadLine> {
    Ok(Draft {
        short_test: take_number(words)?,
        default_test: take_number(words)?,
        topology: take_number(words)?,
        link_up: take_number(words)?,
        link_down: take_number(words)?,
        test_count: take_number(words)?,
        topology_count: take_number(words)?,
        link_count: take_number(words)?,
        priority: 0x8000,
        domain: [0xFF; 16],
        address: address_of(role),
    })
}

fn address_of(role: Role) -> [u8; 6] {
    match role {
        Role::Manager => [2, 0, 0, 0, 0, 0],
        Role::Client => [2, 0, 0, 0, 0, 1],
    }
}

fn link(up: bool, mut words: Words<'_>) -> Result<Command, BadLine> {
    expect_words(&words, 1)?;
    let port = take_port(&mut words)?;
    Ok(Command::Tell(Told::Link { port, up }))
}

fn frame(mut words: Words<'_>) -> Result<Command, BadLine> {
    if words.count() < 2 {
        return Err(BadLine::WordCount);
    }
    let port = take_port(&mut words)?;
    let line = read_line(words.rest);
    let Reading::Octets(_) = line.reading() else {
        return Err(BadLine::NotOctets);
    };
    Ok(Command::Tell(Told::Frame { port, line }))
}

// No timer has the number 255, which stands for all above it.
fn timer(mut words: Words<'_>) -> Result<Command, BadLine> {
    expect_words(&words, 1)?;
    let number = u8::try_from(take_number(&mut words)?).unwrap_or(255);
    Ok(Command::Tell(Told::Timer { number }))
}
