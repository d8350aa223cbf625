// A frame as text: its kind and its fields.
ghost use Rattle.std.specs.Prelude.{Some};
ghost use Rattle.element.specs.Shown.{part_of};
ghost use Rattle.frame.specs.Fields.{role_number, state_number, blocked_number};
ghost use Rattle.frame.specs.Shown.{content_shown, content_kind};
ghost use Rattle.text.specs.Text.{test_text, link_text, content_text, frame_text};

use crate::octets::Octets;
use element::Part;
use frame::{Content, Link, Received, Test};
use std::fmt;

// The line for an accepted frame, without what stands before it.
#[derive(Clone, Copy)]
pub struct FrameText<'a>(pub &'a Received<'a>);

impl fmt::Display for FrameText<'_> {
    ghost output = { λ text. Some (frame_text (content_kind text.0.now.content) (part_of text.0.now.source) (content_shown text.0.now.content) text.0.now.sequence (part_of text.0.now.domain)) };

    fn fmt<W: fmt::Write>(&self, f: &mut fmt::Formatter<W>) -> fmt::Result {
        let frame = self.0;
        let kind = frame.content.kind();
        let source = Octets(frame.source.octets);
        let content = ContentText(&frame.content);
        let sequence = frame.sequence;
        let domain = Octets(frame.domain.octets);
        write!(
            f,
            "{kind} source={source}{content} sequence={sequence} domain={domain}"
        )
    }
}

#[derive(Clone, Copy)]
struct ContentText<'a>(&'a Content<Part<'a>>);

impl fmt::Display for ContentText<'_> {
    ghost output = { λ text. Some (content_text (content_shown text.0.now)) };

    fn fmt<W: fmt::Write>(&self, f: &mut fmt::Formatter<W>) -> fmt::Result {
        match self.0 {
            Content::Test(test) => f.write(TestText(test)),
            Content::TopologyChange(change) => {
                let priority = change.priority;
                let sender = Octets(change.sender.octets);
                let interval = change.interval;
                write!(
                    f,
                    " priority={priority} sender={sender} interval={interval}"
                )
            }
            Content::LinkDown(link) | Content::LinkUp(link) => f.write(LinkText(link)),
        }
    }
}

#[derive(Clone, Copy)]
struct TestText<'a>(&'a Test<Part<'a>>);

impl fmt::Display for TestText<'_> {
    ghost output = { λ text. Some (test_text text.0.now.priority (part_of text.0.now.sender) (role_number text.0.now.role) (state_number text.0.now.state) text.0.now.transitions text.0.now.stamp) };

    fn fmt<W: fmt::Write>(&self, f: &mut fmt::Formatter<W>) -> fmt::Result {
        let test = self.0;
        let priority = test.priority;
        let sender = Octets(test.sender.octets);
        let role = u16::from(test.role);
        let state = u16::from(test.state);
        let transitions = test.transitions;
        let stamp = test.stamp;
        write!(f, " priority={priority} sender={sender}")?;
        write!(
            f,
            " role={role} state={state} transitions={transitions} stamp={stamp}"
        )
    }
}

#[derive(Clone, Copy)]
struct LinkText<'a>(&'a Link<Part<'a>>);

impl fmt::Display for LinkText<'_> {
    ghost output = { λ text. Some (link_text (part_of text.0.now.sender) (role_number text.0.now.role) text.0.now.interval (blocked_number text.0.now.blocked)) };

    fn fmt<W: fmt::Write>(&self, f: &mut fmt::Formatter<W>) -> fmt::Result {
        let link = self.0;
        let sender = Octets(link.sender.octets);
        let role = u16::from(link.role);
        let interval = link.interval;
        let blocked = u8::from(link.blocked);
        write!(
            f,
            " sender={sender} role={role} interval={interval} blocked={blocked}"
        )
    }
}
