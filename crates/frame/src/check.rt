// The kind of a frame, or its refusal, without the fields: what the reader finds, for callers that only sort frames. It is
// about twice as fast as the reader, beside which it stands for that.
ghost use Rattle.std.specs.Prelude.{◌≡◌, ◌+◌, ◌≤◌, ◌&&◌, length, take, drop, is_some, Some, nat_le};
ghost use Rattle.std.specs.Str.{bytes_eq};
ghost use Rattle.kind.specs.Kinds.{type_of, destination_of, address_of, goes_to};
ghost use Rattle.layout.specs.Fields.{word16 as word};
ghost use Rattle.layout.specs.Elements.{element_at, kind_of, in_values, is_priority, stands};
ghost use Rattle.layout.specs.Reading.{reading, read_first, head_of};
ghost use Rattle.element.specs.Shown.{Passes};
ghost use Rattle.frame.specs.Checked.{checked, kind_reading, first_at, KindAt};

use crate::field::is_priority;
use crate::zero_from;
use kind::{Destination, Kind};
use refusal::Refusal;

// The kinds by the type of their first element, from 2 on: looked up, since no branch on the kind can be foretold.
static KINDS: [Kind; 4] = [
    Kind::Test,
    Kind::TopologyChange,
    Kind::LinkDown,
    Kind::LinkUp,
];

pub fn frame_kind(octets: &[u8]) -> Result<Kind, Refusal>
    ensures { checked result ≡ kind_reading (reading octets.now) }
{
    let 50..=60 = octets.len() else {
        return Err(Refusal::FrameSize);
    };
    let Some(destination) = destination_of(octets) else {
        return Err(Refusal::UnknownDestination);
    };
    let 0x88E3 = word_at(octets, 12) else {
        return Err(Refusal::EtherType);
    };
    let 1 = word_at(octets, 14) else {
        return Err(Refusal::Version);
    };
    check_elements(octets, destination)
}

// The destination, all of its octets compared as one number.
fn destination_of(octets: &[u8]) -> Option<Destination>
    requires { 6 ≤ length octets.now }
    ensures { result ≡ destination_of (take 6 (drop 0 octets.now)) }
{
    let address = [
        0, 0, octets[0], octets[1], octets[2], octets[3], octets[4], octets[5],
    ];
    match u64::from_be_bytes(address) {
        0x0115_4E00_0001 => Some(Destination::McTest),
        0x0115_4E00_0002 => Some(Destination::McControl),
        _ => None,
    }
}

// Goes on from the version, which is known to be 1. Here and below, fifty octets at least are what the length was checked for.
#[tactic(auto, using(std::proofs::lemmas::Bool::Decides::nat_tests, crate::proofs::First::kind_at))]
fn check_elements(octets: &[u8], destination: Destination) -> Result<Kind, Refusal>
    requires long { 50 ≤ length octets.now }
    requires to { Some destination ≡ destination_of (take 6 (drop 0 octets.now)) }
    ensures { checked result ≡ kind_reading (read_first octets.now (head_of octets.now) (element_at octets.now 16)) }
{
    let Some(kind) = first_kind(octets) else {
        return Err(Refusal::FirstElement);
    };
    let total = 14 + kind.span();
    let true = total <= octets.len() else {
        return Err(Refusal::TooShort);
    };
    let true = goes_to(octets, destination, kind) else {
        return Err(Refusal::WrongDestination);
    };
    let true = fields_fit(octets, kind) else {
        return Err(Refusal::FieldValue);
    };
    let true = stands_at(octets, total - 22, 1, 18) else {
        return Err(Refusal::NoCommon);
    };
    let true = stands_at(octets, total - 2, 0, 0) else {
        return Err(Refusal::NoEnd);
    };
    let true = zero_from(octets, total) else {
        return Err(Refusal::Padding);
    };
    Ok(kind)
}

// Whether the destination is that of the kind.
fn goes_to(octets: &[u8], destination: Destination, kind: Kind) -> bool
    requires { Some destination ≡ destination_of (take 6 (drop 0 octets.now)) }
    ensures { result ≡ bytes_eq (take 6 (drop 0 octets.now)) (address_of (goes_to kind)) }
{
    kind.destination() == destination
}

// The kind of frame that begins with the element after the version: its type tells the kind, which tells its length.
#[tactic(auto, using(crate::proofs::First::kind_by_length, crate::proofs::First::other_type))]
fn first_kind(octets: &[u8]) -> Option<Kind>
    requires { 50 ≤ length octets.now }
    ensures { result ≡ kind_of (element_at octets.now 16) }
{
    typed(octets[16]).filter(|kind| octets[17] as usize + 26 == kind.span())
}

// The kind whose first element has this type.
fn typed(element: u8) -> Option<Kind>
    ensures { Passes result (nat_le 2 element && nat_le element 5) (λ k. type_of k ≡ element) }
{
    KINDS.get((element as usize).checked_sub(2)?).copied()
}

// Whether the fields of a first element of this kind have their values.
fn fields_fit(octets: &[u8], kind: Kind) -> bool
    requires { 50 ≤ length octets.now }
    ensures { result ≡ in_values (first_at kind octets.now) }
{
    match kind {
        Kind::Test => is_priority(word_at(octets, 18)) && is_bit(octets, 26) && is_bit(octets, 28),
        Kind::TopologyChange => is_priority(word_at(octets, 18)),
        Kind::LinkDown => is_bit(octets, 24) && is_bit(octets, 28),
        Kind::LinkUp => is_bit(octets, 24) && is_bit(octets, 28),
    }
}

fn is_bit(octets: &[u8], at: usize) -> bool
    requires { at + 2 ≤ length octets.now }
    ensures { result ≡ nat_le (word octets.now at) 1 }
{
    word_at(octets, at) <= 1
}

#[tactic(auto, unfolding(layout::specs::Elements::stands))]
fn stands_at(octets: &[u8], at: usize, element: u8, n: u8) -> bool
    requires { at + 2 + n ≤ length octets.now }
    ensures { result ≡ stands octets.now at element n }
{
    octets[at] == element && octets[at + 1] == n
}

// The walk's word16 does the same; one function for both would be public, and no public function may require anything.
fn word_at(octets: &[u8], at: usize) -> u16
    requires { at + 2 ≤ length octets.now }
    ensures { result ≡ word octets.now at }
{
    u16::from_be_bytes([octets[at], octets[at + 1]])
}
