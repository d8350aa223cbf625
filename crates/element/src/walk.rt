// The walk over a frame's elements: each step gives the next one.
ghost use Rattle.std.specs.Prelude.{◌≡◌, ◌+◌, ◌≤◌, length, IfSome};
ghost use Rattle.layout.specs.Fields.{octet, part as piece, word16 as word, word32 as long};
ghost use Rattle.layout.specs.Elements.{element_at, test_at, topology_change_at, link_down_at, link_up_at, common_at, size_of, stands};
ghost use Rattle.element.specs.declared.walk.Element.TheVariants.{Test, TopologyChange, LinkDown, LinkUp, Common};
ghost use Rattle.element.specs.Shown.{part_of, element_shown, found, FoundAt, HasLeft};

use crate::part::Part;

// An element with its fields; sender and domain are parts of the frame.
#[derive(Clone, Copy)]
pub enum Element<'a> {
    Test(TestContent<'a>),
    TopologyChange(TopologyChangeContent<'a>),
    LinkDown(LinkContent<'a>),
    LinkUp(LinkContent<'a>),
    Common(CommonContent<'a>),
    End,
}

// The contents are raw: each field may be any number. A frame's have none but their values, so that the two are two types.
// The part comes first in each, so that it lies at one place in all of them.
#[derive(Clone, Copy)]
pub struct TestContent<'a> {
    pub sender: Part<'a>,
    pub priority: u16,
    pub role: u16,
    pub state: u16,
    pub transitions: u16,
    pub stamp: u32,
}

#[derive(Clone, Copy)]
pub struct TopologyChangeContent<'a> {
    pub sender: Part<'a>,
    pub priority: u16,
    pub interval: u16,
}

// The content of LinkDown and of LinkUp.
#[derive(Clone, Copy)]
pub struct LinkContent<'a> {
    pub sender: Part<'a>,
    pub role: u16,
    pub interval: u16,
    pub blocked: u16,
}

#[derive(Clone, Copy)]
pub struct CommonContent<'a> {
    pub domain: Part<'a>,
    pub sequence: u16,
}

// A walk over the octets of a frame, and how far it has come. No iterator, since no loop goes over the elements: each call
// looks for another one.
#[derive(Drop)]
pub struct Elements<'a> {
    pub octets: &'a [u8],
    pub at: usize,
}

impl<'a> Elements<'a> {
    // The element at the place of the walk, which then moves past it; where none stands, it stays.
    pub fn next_element(&mut self) -> Option<Element<'a>>
        ensures element { FoundAt self.old.octets.now self.old.at result }
        ensures octets { self.new.octets.now ≡ self.old.octets.now }
        ensures place { self.new.at ≡ self.old.at + size_of (found result) }
    {
        let next = self.element()?;
        self.at += 2 + self.octets[self.at + 1] as usize;
        Some(next)
    }

    #[tactic(auto, unfolding(layout::specs::Elements::element_at, layout::specs::Elements::stands))]
    fn element(&self) -> Option<Element<'a>>
        ensures element { FoundAt self.now.octets.now self.now.at result }
        ensures within { IfSome result (λ e. (self.now.at + size_of (element_shown e) ≤ length self.now.octets.now) × (size_of (element_shown e) ≡ 2 + octet self.now.octets.now (self.now.at + 1)) × (2 ≤ size_of (element_shown e))) }
    {
        let [element, n, content @ ..] = self.octets.get(self.at..)? else {
            return None;
        };
        if content.len() < *n as usize {
            return None;
        }
        // type and length as they stand in the octets
        match (element, n) {
            (2, 18) => Some(Element::Test(self.test())),
            (3, 10) => Some(Element::TopologyChange(self.topology_change())),
            (4, 12) => Some(Element::LinkDown(self.link())),
            (5, 12) => Some(Element::LinkUp(self.link())),
            (1, 18) => Some(Element::Common(self.common())),
            (0, 0) => Some(Element::End),
            _ => None,
        }
    }

    fn test(&self) -> TestContent<'a>
        requires { HasLeft self.now 20 }
        ensures { element_shown (Test result) ≡ test_at self.now.octets.now self.now.at }
    {
        TestContent {
            sender: self.part(4, 6),
            priority: self.word16(2),
            role: self.word16(10),
            state: self.word16(12),
            transitions: self.word16(14),
            stamp: self.word32(16),
        }
    }

    fn topology_change(&self) -> TopologyChangeContent<'a>
        requires { HasLeft self.now 12 }
        ensures { element_shown (TopologyChange result) ≡ topology_change_at self.now.octets.now self.now.at }
    {
        TopologyChangeContent {
            sender: self.part(4, 6),
            priority: self.word16(2),
            interval: self.word16(10),
        }
    }

    fn link(&self) -> LinkContent<'a>
        requires { HasLeft self.now 14 }
        ensures down { element_shown (LinkDown result) ≡ link_down_at self.now.octets.now self.now.at }
        ensures up { element_shown (LinkUp result) ≡ link_up_at self.now.octets.now self.now.at }
    {
        LinkContent {
            sender: self.part(2, 6),
            role: self.word16(8),
            interval: self.word16(10),
            blocked: self.word16(12),
        }
    }

    fn common(&self) -> CommonContent<'a>
        requires { HasLeft self.now 20 }
        ensures { element_shown (Common result) ≡ common_at self.now.octets.now self.now.at }
    {
        CommonContent {
            domain: self.part(4, 16),
            sequence: self.word16(2),
        }
    }

    // The `n` octets that begin so far past the place of the walk.
    pub(crate) fn part(&self, past: usize, n: usize) -> Part<'a>
        requires { HasLeft self.now (past + n) }
        ensures { part_of result ≡ piece self.now.octets.now (self.now.at + past) n }
    {
        let at = self.at + past;
        Part {
            at,
            octets: &self.octets[at..at + n],
        }
    }

    pub(crate) fn word16(&self, past: usize) -> u16
        requires { HasLeft self.now (past + 2) }
        ensures { result ≡ word self.now.octets.now (self.now.at + past) }
    {
        let at = self.at + past;
        u16::from_be_bytes([self.octets[at], self.octets[at + 1]])
    }

    pub(crate) fn word32(&self, past: usize) -> u32
        requires { HasLeft self.now (past + 4) }
        ensures { result ≡ long self.now.octets.now (self.now.at + past) }
    {
        let at = self.at + past;
        u32::from_be_bytes([
            self.octets[at],
            self.octets[at + 1],
            self.octets[at + 2],
            self.octets[at + 3],
        ])
    }
}
