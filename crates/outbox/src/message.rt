// What a node says in a frame; its address, domain and priority come from its settings.
ghost use Rattle.std.specs.Prelude.{◌≡◌, ◌++◌, drop};
ghost use Rattle.outbox.specs.Messages.{link_of, content_of, outgoing_of, octets_of, total_of};

use frame::{Content, Frame, Link, PortRole, RingState, Test, TopologyChange};
use settings::{Draft, Settings};
use writer::Outgoing;

#[derive(Clone, Copy)]
pub enum Message {
    Test {
        role: PortRole,
        ring: RingState,
        transitions: u16,
        stamp: u32,
    },
    TopologyChange {
        interval: u16,
    },
    LinkDown {
        interval: u16,
    },
    LinkUp {
        interval: u16,
    },
}

impl Message {
    pub fn total(self) -> usize
        ensures { result ≡ total_of self }
    {
        match self {
            Message::Test { .. } => 58,
            Message::TopologyChange { .. } => 50,
            Message::LinkDown { .. } | Message::LinkUp { .. } => 52,
        }
    }

    // Writes the frame, and answers its total; what stands past that stays.
    #[tactic(auto, using(crate::proofs::Writes::after_is))]
    pub fn write(self, settings: &Settings, sequence: u16, out: &mut [u8; 60]) -> usize
        ensures total { result ≡ total_of self }
        ensures octets { out.new ≡ octets_of settings.now self sequence ++ drop (total_of self) out.old }
    {
        let frame = self.outgoing(&settings.asked, sequence);
        // never refused: settings have a priority of the right values, and a place has 60 octets
        let _ = writer::write(&frame, out);
        self.total()
    }

    fn outgoing(self, asked: &Draft, sequence: u16) -> Outgoing
        ensures { result ≡ outgoing_of asked.now self sequence }
    {
        Frame {
            source: asked.address,
            content: self.content(asked),
            sequence,
            domain: asked.domain,
        }
    }

    fn content(self, asked: &Draft) -> Content<[u8; 6]>
        ensures { result ≡ content_of asked.now self }
    {
        let sender = asked.address;
        let priority = asked.priority;
        match self {
            Message::Test {
                role,
                ring,
                transitions,
                stamp,
            } => Content::Test(Test {
                priority,
                sender,
                role,
                state: ring,
                transitions,
                stamp,
            }),
            Message::TopologyChange { interval } => Content::TopologyChange(TopologyChange {
                priority,
                sender,
                interval,
            }),
            Message::LinkDown { interval } => Content::LinkDown(link(sender, interval)),
            Message::LinkUp { interval } => Content::LinkUp(link(sender, interval)),
        }
    }
}

// Every client says that its port is the secondary one, and that it can block.
fn link(sender: [u8; 6], interval: u16) -> Link<[u8; 6]>
    ensures { result ≡ link_of sender interval }
{
    Link {
        sender,
        role: PortRole::Secondary,
        interval,
        blocked: true,
    }
}
