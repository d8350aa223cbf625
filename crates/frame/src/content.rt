// The content of a frame: its first element, with each field known to have one of its values.
ghost use Rattle.std.specs.Prelude.{◌≡◌, ℕ, ◌≤◌, ◌&&◌, nat_le};
ghost use Rattle.layout.specs.Fields as fields;
ghost use Rattle.layout.specs.Elements.{in_values};
ghost use Rattle.element.specs.Shown.{element_shown};
ghost use Rattle.element.specs.declared.walk.Element.TheVariants as elements;
ghost use Rattle.frame.specs.declared.content.Content.TheVariants.{Test, TopologyChange};
ghost use Rattle.frame.specs.Fields.{Fits};
ghost use Rattle.frame.specs.Shown.{shown_with, content_shown, content_sender, content_kind, SameLink};

use crate::field::{PortRole, RingState, checked_priority, is_priority, one_of_two};
use element::{Element, LinkContent, Part, TestContent, TopologyChangeContent};
use kind::Kind;
use refusal::Refusal;

// The manager's Test.
#[derive(Clone, Copy)]
pub struct Test<A> {
    pub sender: A,
    pub priority: u16,
    pub role: PortRole,
    pub state: RingState,
    pub transitions: u16,
    pub stamp: u32,
}

// The manager's announcement of a change.
#[derive(Clone, Copy)]
pub struct TopologyChange<A> {
    pub sender: A,
    pub priority: u16,
    pub interval: u16,
}

// What a client says of one of its links; `blocked` where it can block.
#[derive(Clone, Copy)]
pub struct Link<A> {
    pub sender: A,
    pub role: PortRole,
    pub interval: u16,
    pub blocked: bool,
}

#[derive(Clone, Copy)]
pub enum Content<A> {
    Test(Test<A>),
    TopologyChange(TopologyChange<A>),
    LinkDown(Link<A>),
    LinkUp(Link<A>),
}

impl<A> Content<A> {
    pub fn kind(&self) -> Kind
        ensures { result ≡ content_kind self.now }
    {
        match self {
            Content::Test(_) => Kind::Test,
            Content::TopologyChange(_) => Kind::TopologyChange,
            Content::LinkDown(_) => Kind::LinkDown,
            Content::LinkUp(_) => Kind::LinkUp,
        }
    }

    // Whether each field has one of its values: all but the priority do by their types.
    pub fn in_values(&self) -> bool
        ensures { (place : ℕ → A → fields.Part) → result ≡ in_values (shown_with place self.now) }
    {
        match self {
            Content::Test(test) => is_priority(test.priority),
            Content::TopologyChange(change) => is_priority(change.priority),
            Content::LinkDown(_) => true,
            Content::LinkUp(_) => true,
        }
    }
}

impl<A: Copy> Content<A> {
    // The node that the frame is from.
    pub fn sender(&self) -> A
        ensures { result ≡ content_sender self.now }
    {
        match self {
            Content::Test(test) => test.sender,
            Content::TopologyChange(change) => change.sender,
            Content::LinkDown(link) => link.sender,
            Content::LinkUp(link) => link.sender,
        }
    }
}

impl<'a> TryFrom<TestContent<'a>> for Test<Part<'a>> {
    type Error = Refusal;

    ghost try_from_gives = { λ test result. Fits result (in_values (element_shown (elements.Test test))) (λ t. content_shown (Test t) ≡ element_shown (elements.Test test)) };

    fn try_from(test: TestContent<'a>) -> Result<Test<Part<'a>>, Refusal> {
        Ok(Test {
            sender: test.sender,
            priority: checked_priority(test.priority)?,
            role: PortRole::try_from(test.role)?,
            state: RingState::try_from(test.state)?,
            transitions: test.transitions,
            stamp: test.stamp,
        })
    }
}

impl<'a> TryFrom<TopologyChangeContent<'a>> for TopologyChange<Part<'a>> {
    type Error = Refusal;

    ghost try_from_gives = { λ change result. Fits result (in_values (element_shown (elements.TopologyChange change))) (λ t. content_shown (TopologyChange t) ≡ element_shown (elements.TopologyChange change)) };

    fn try_from(change: TopologyChangeContent<'a>) -> Result<TopologyChange<Part<'a>>, Refusal> {
        Ok(TopologyChange {
            sender: change.sender,
            priority: checked_priority(change.priority)?,
            interval: change.interval,
        })
    }
}

impl<'a> TryFrom<LinkContent<'a>> for Link<Part<'a>> {
    type Error = Refusal;

    ghost try_from_gives = { λ link result. Fits result (nat_le link.role 1 && nat_le link.blocked 1) (λ l. SameLink l link) };

    fn try_from(link: LinkContent<'a>) -> Result<Link<Part<'a>>, Refusal> {
        Ok(Link {
            sender: link.sender,
            role: PortRole::try_from(link.role)?,
            interval: link.interval,
            blocked: one_of_two(link.blocked, false, true)?,
        })
    }
}

// The content of a first element, where each field has one of its values.
impl<'a> TryFrom<Element<'a>> for Content<Part<'a>> {
    type Error = Refusal;

    ghost try_from_gives = { λ element result. Fits result (in_values (element_shown element)) (λ c. content_shown c ≡ element_shown element) };

    fn try_from(element: Element<'a>) -> Result<Content<Part<'a>>, Refusal> {
        match element {
            Element::Test(test) => Ok(Content::Test(Test::try_from(test)?)),
            Element::TopologyChange(change) => Ok(Content::TopologyChange(TopologyChange::try_from(
                change,
            )?)),
            Element::LinkDown(link) => Ok(Content::LinkDown(Link::try_from(link)?)),
            Element::LinkUp(link) => Ok(Content::LinkUp(Link::try_from(link)?)),
            Element::Common(_) => Err(Refusal::FieldValue),
            Element::End => Err(Refusal::FieldValue),
        }
    }
}
