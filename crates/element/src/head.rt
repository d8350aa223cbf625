// The head of a frame: destination, source and type, up to the version.
ghost use Rattle.std.specs.Prelude.{◌≡◌, ◌≤◌, length};
ghost use Rattle.layout.specs.Reading.{is_sized, head_of};
ghost use Rattle.element.specs.Shown.{Passes, head_shown};

use crate::part::Part;
use crate::walk::Elements;

#[derive(Clone, Copy)]
pub struct Head<'a> {
    pub destination: Part<'a>,
    pub source: Part<'a>,
    pub ether_type: u16,
    // The place of the version: all that follows is counted from here.
    pub version_at: usize,
    pub version: u16,
}

impl<'a> Head<'a> {
    // The head, where there are 50 to 60 octets. An Option, since the chain of checks, which names the refusals, is the reader's.
    pub fn of(octets: &'a [u8]) -> Option<Head<'a>>
        ensures { Passes result (is_sized octets.now) (λ h. head_shown h ≡ head_of octets.now) }
    {
        let 50..=60 = octets.len() else {
            return None;
        };
        Some(head_of(octets))
    }
}

fn head_of<'a>(octets: &'a [u8]) -> Head<'a>
    requires { 16 ≤ length octets.now }
    ensures { head_shown result ≡ head_of octets.now }
{
    let front = Elements { octets, at: 0 };
    Head {
        destination: front.part(0, 6),
        source: front.part(6, 6),
        ether_type: front.word16(12),
        version_at: 14,
        version: front.word16(14),
    }
}
