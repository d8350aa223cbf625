// The parts of a line of output: the node as it stands, and what it sent.
use crate::player::Seen;
use anyhow::bail;
use event::Timer;
use frame::read;
use machine::Machine;
use node::Node;
use outbox::{Outbox, Place};
use std::fmt;
use std::io::Write;
use text::FrameText;

const TIMERS: [Timer; 5] = [
    Timer::Test,
    Timer::Topology,
    Timer::LinkUp,
    Timer::LinkDown,
    Timer::Clear,
];

// State, ports and running timers, each after a space.
impl fmt::Display for Seen {
    fn fmt<W: fmt::Write>(&self, f: &mut fmt::Formatter<W>) -> fmt::Result {
        match &self.node {
            Node::Client(client) => write!(f, " {}", client.state())?,
            Node::Manager(manager) => write!(f, " {}", manager.state())?,
        }
        write!(f, " {} {}", self.first, self.second)?;
        for timer in TIMERS {
            if let Some(interval) = self.node.timer(timer) {
                write!(f, " {timer}={interval}")?;
            }
        }
        Ok(())
    }
}

// The frames in the places that are taken, each after a semicolon.
pub fn write_sent<W: Write>(out: &mut W, sent: &Outbox) -> anyhow::Result<()> {
    for place in sent.places.iter().take(sent.count) {
        write_place(out, place)?;
    }
    Ok(())
}

fn write_place<W: Write>(out: &mut W, place: &Place) -> anyhow::Result<()> {
    let total = place.total.min(place.octets.len());
    let Ok(frame) = read(&place.octets[..total]) else {
        bail!("the node sent a frame that cannot be read");
    };
    let port = place.port;
    let text = FrameText(&frame);
    write!(out, "; {port} {text}")?;
    Ok(())
}
