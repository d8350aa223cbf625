// Reading from C: the kind of a frame, and its fields by number.
ghost use Rattle.std.specs.Prelude.{◌≡◌};
ghost use Rattle.std.specs.Option.{unwrap_or};
ghost use Rattle.layout.specs.Reading.{reading};
ghost use Rattle.element.specs.Shown.{part_of};
ghost use Rattle.frame.specs.Fields.{blocked_number, role_number};
ghost use Rattle.frame.specs.Shown.{content_shown};
ghost use Rattle.firmware.specs.Answers.{no_value, read_number, field_number, accepted_field, element_field, link_field};

use element::Part;
use frame::{Content, Link, Received, frame_kind, read};

// What stands for no value: no field is so large.
const NO_VALUE: u64 = 0x1_0000_0000;

// The kind of the frame in these octets, or the number of its refusal; C takes numbers.
#[unsafe(no_mangle)]
pub extern "C" fn mrp_read(octets: &[u8]) -> u32
    ensures { result ≡ read_number (reading octets.now) }
{
    match frame_kind(octets) {
        Ok(kind) => 0x100 + u32::from(kind.element_type()),
        Err(refusal) => u32::from(refusal.number()),
    }
}

// A field of the frame in these octets, by its number.
#[unsafe(no_mangle)]
pub extern "C" fn mrp_field(octets: &[u8], field: u32) -> u64
    ensures { result ≡ field_number (reading octets.now) field }
{
    match read(octets) {
        Ok(frame) => frame_field(&frame, field).unwrap_or(NO_VALUE),
        Err(refusal) => NO_VALUE + u64::from(refusal.number()),
    }
}

// The field, where a frame of this kind has it. C asks for fields by number.
fn frame_field(frame: &Received, field: u32) -> Option<u64>
    ensures { unwrap_or result no_value ≡ accepted_field (part_of frame.now.source) (content_shown frame.now.content) frame.now.sequence (part_of frame.now.domain) field }
{
    match field {
        0 => Some(u64::from(frame.sequence)),
        8 => Some(frame.source.at as u64),
        10 => Some(frame.domain.at as u64),
        _ => content_field(&frame.content, field),
    }
}

fn content_field(content: &Content<Part>, field: u32) -> Option<u64>
    ensures { unwrap_or result no_value ≡ element_field (content_shown content.now) field }
{
    match content {
        Content::Test(test) => match field {
            1 => Some(u64::from(test.priority)),
            2 => Some(u64::from(u16::from(test.role))),
            3 => Some(u64::from(u16::from(test.state))),
            4 => Some(u64::from(test.transitions)),
            5 => Some(u64::from(test.stamp)),
            9 => Some(test.sender.at as u64),
            _ => None,
        },
        Content::TopologyChange(change) => match field {
            1 => Some(u64::from(change.priority)),
            6 => Some(u64::from(change.interval)),
            9 => Some(change.sender.at as u64),
            _ => None,
        },
        Content::LinkDown(link) => link_field(link, field),
        Content::LinkUp(link) => link_field(link, field),
    }
}

fn link_field(link: &Link<Part>, field: u32) -> Option<u64>
    ensures { unwrap_or result no_value ≡ link_field link.now.sender.at (role_number link.now.role) link.now.interval (blocked_number link.now.blocked) field }
{
    match field {
        2 => Some(u64::from(u16::from(link.role))),
        6 => Some(u64::from(link.interval)),
        7 => Some(u64::from(link.blocked)),
        9 => Some(link.sender.at as u64),
        _ => None,
    }
}
