// What a frame says to a node.
#![tactic(auto)]

ghost use Rattle.std.specs.Prelude.{◌≡◌, Ok};
ghost use Rattle.frame.specs.Shown.{content_shown, outcome};
ghost use Rattle.hearing.specs.Heards.{said, understood, heard, is_mrp};

use element::Part;
use frame::{Content, Received};
use kind::Destination;
use settings::Settings;

#[derive(Clone, Copy, PartialEq, Eq, Debug)]
pub enum Heard {
    OwnTest,
    LinkFrame,
    TopologyChange { interval: u16 },
}

// What the content of a frame of the node's domain says.
fn said_by(settings: &Settings, content: &Content<Part<'_>>) -> Option<Heard>
    ensures { result ≡ said settings.now (content_shown content.now) }
{
    match content {
        Content::Test(test) => {
            (test.sender.octets == settings.asked.address.as_slice()).then_some(Heard::OwnTest)
        }
        Content::LinkDown(_) | Content::LinkUp(_) => Some(Heard::LinkFrame),
        Content::TopologyChange(change) => Some(Heard::TopologyChange {
            interval: change.interval,
        }),
    }
}

// What a readable frame says: nothing, where it is of another domain.
fn said_in(settings: &Settings, frame: &Received<'_>) -> Option<Heard>
    ensures { result ≡ understood settings.now (outcome (Ok frame.now)) }
{
    if frame.domain.octets == settings.asked.domain.as_slice() {
        said_by(settings, &frame.content)
    } else {
        None
    }
}

// What the octets of a frame say to a node with these settings.
#[tactic(auto, unfolding(crate::specs::Heards::heard))]
pub fn hear(settings: &Settings, octets: &[u8]) -> Option<Heard>
    ensures { result ≡ heard settings.now octets.now }
{
    let frame = frame::read(octets).ok()?;
    said_in(settings, &frame)
}

// Whether a frame goes to one of the two MRP addresses, readable or not.
pub fn is_mrp(octets: &[u8]) -> bool
    ensures { result ≡ is_mrp octets.now }
{
    octets
        .get(0..6)
        .is_some_and(|first| Destination::of(first).is_some())
}
