// Reads MRP frames: every list of octets is a frame with its fields, or is refused by the first check that it fails.
#![tactic(auto)]

mod check;
mod content;
mod field;

ghost use Rattle.std.specs.Prelude.{◌≡◌, ◌+◌, ◌≤◌, length, drop, is_some};
ghost use Rattle.layout.specs.Elements.{element_at, kind_of};
ghost use Rattle.layout.specs.Reading.{reading, read_first, all_zero};
ghost use Rattle.layout.specs.Layout.{LaidOut};
ghost use Rattle.element.specs.Shown.{Passes, head_shown, element_shown};
ghost use Rattle.frame.specs.Shown.{outcome};

pub use check::frame_kind;
pub use content::{Content, Link, Test, TopologyChange};
use element::{Element, Elements, Head, Part};
pub use field::{PortRole, RingState, one_of_two};
use kind::{Destination, Kind};
use refusal::Refusal;

// A frame, whose addresses have the form A and whose domain has the form D: parts of octets, or octets of its own.
#[derive(Clone, Copy)]
pub struct Frame<A, D> {
    pub source: A,
    pub content: Content<A>,
    pub sequence: u16,
    pub domain: D,
}

// A frame that was read: its addresses and its domain are parts of the octets.
pub type Received<'a> = Frame<Part<'a>, Part<'a>>;

pub fn read<'a>(octets: &'a [u8]) -> Result<Received<'a>, Refusal>
    ensures value { outcome result ≡ reading octets.now }
    ensures laid_out { LaidOut octets.now (outcome result) }
{
    let Some(head) = Head::of(octets) else {
        return Err(Refusal::FrameSize);
    };
    let Some(_) = Destination::of(head.destination.octets) else {
        return Err(Refusal::UnknownDestination);
    };
    let 0x88E3 = head.ether_type else {
        return Err(Refusal::EtherType);
    };
    let 1 = head.version else {
        return Err(Refusal::Version);
    };
    read_elements(octets, head)
}

// Reads on from the version, which is known to be 1.
fn read_elements<'a>(octets: &'a [u8], head: Head<'a>) -> Result<Received<'a>, Refusal>
    requires { head.version_at ≤ 60 }
    ensures { outcome result ≡ read_first octets.now (head_shown head.entry) (element_at octets.now (head.entry.version_at + 2)) }
{
    let at = head.version_at + 2;
    let mut elements = Elements { octets, at };
    let Some(first) = elements.next_element() else {
        return Err(Refusal::FirstElement);
    };
    let Some(kind) = kind_of(&first) else {
        return Err(Refusal::FirstElement);
    };
    let total = head.version_at + kind.span();
    let true = total <= octets.len() else {
        return Err(Refusal::TooShort);
    };
    let true = kind.destination().is(head.destination.octets) else {
        return Err(Refusal::WrongDestination);
    };
    let content = Content::try_from(first)?;
    let Some(Element::Common(common)) = elements.next_element() else {
        return Err(Refusal::NoCommon);
    };
    let Some(Element::End) = elements.next_element() else {
        return Err(Refusal::NoEnd);
    };
    let true = zero_from(octets, total) else {
        return Err(Refusal::Padding);
    };
    Ok(Frame {
        source: head.source,
        content,
        sequence: common.sequence,
        domain: common.domain,
    })
}

// The kind of frame that begins with the element.
fn kind_of(element: &Element) -> Option<Kind>
    ensures { result ≡ kind_of (element_shown element.now) }
{
    match element {
        Element::Test(_) => Some(Kind::Test),
        Element::TopologyChange(_) => Some(Kind::TopologyChange),
        Element::LinkDown(_) => Some(Kind::LinkDown),
        Element::LinkUp(_) => Some(Kind::LinkUp),
        Element::Common(_) => None,
        Element::End => None,
    }
}

// Whether all octets from `end` on are zero. The tail is checked by a loop over its octets: a rule of the project.
#[tactic(auto, using(crate::proofs::Tail::zero_stop, crate::proofs::Tail::zero_more, crate::proofs::Tail::zero_all, std::proofs::lemmas::List::take_rest))]
pub(crate) fn zero_from(octets: &[u8], end: usize) -> bool
    requires { end ≤ length octets.now }
    ensures { result ≡ all_zero (drop end octets.now) }
{
    for octet in &octets[end..] {
        if *octet != 0 {
            return false;
        }
    }
    true
}
