// A running node on a switch, with the time that its Tests tell.
use crate::command::Told;
use hexline::{Line, Reading};
use life::{Fitted, Running};
use node::{Node, Role};
use outbox::Outbox;
use refusal::Refusal;
use settings::Settings;
use switch::{Port, PortState, Switch};

// The stamp is the number of timers that ran out.
#[derive(Drop)]
pub struct Player<S> {
    node: Running<S>,
    stamp: u32,
}

// A node as it stands, with the states of its ports.
#[derive(Clone, Copy)]
pub struct Seen {
    pub node: Node,
    pub first: PortState,
    pub second: PortState,
}

// The port by which a frame is passed on, or what was refused.
pub type Answer = Result<Option<Port>, Refusal>;

impl<S: Switch> Player<S> {
    pub fn new(role: Role, settings: Settings) -> Self {
        Player {
            node: Fitted::fit(role, settings, S::new()).start(),
            stamp: 0,
        }
    }

    pub fn tell(&mut self, told: &Told, out: &mut Outbox) -> Answer {
        let stamp = self.stamp;
        match told {
            Told::Link { port, up } => {
                self.node.link(stamp, *port, *up, out);
                Ok(None)
            }
            Told::Frame { port, line } => Ok(self.node.frame(stamp, *port, octets_of(line), out)),
            Told::Timer { number } => {
                self.node.expire(stamp, *number, out)?;
                self.stamp = stamp.wrapping_add(1);
                Ok(None)
            }
        }
    }

    pub fn seen(&self) -> Seen {
        Seen {
            node: self.node.node(),
            first: self.node.port_state(Port::One),
            second: self.node.port_state(Port::Two),
        }
    }
}

// The line of a frame has octets: whoever read the command saw to it.
fn octets_of(line: &Line) -> &[u8] {
    match line.reading() {
        Reading::Octets(octets) => octets,
        Reading::Blank | Reading::NotHex => &[],
    }
}
