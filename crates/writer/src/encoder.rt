// The writer: destination, source, type and version, first element, Common and End, one after the other.
ghost use Rattle.std.specs.Prelude.{◌≡◌, ◌<◌, ◌≤◌, [], ◌∷◌, ◌++◌, length, drop};
ghost use Rattle.kind.specs.Kinds.{type_of, goes_to, address_of};
ghost use Rattle.layout.specs.Elements.{size_of, common};
ghost use Rattle.layout.specs.Layout.{octets_of, link_octets};
ghost use Rattle.frame.specs.Fields.{role_number, blocked_number};
ghost use Rattle.frame.specs.declared.content.Content.TheVariants as content;
ghost use Rattle.writer.specs.Sent.{placed, body_shown, FitsBody, FitsLink, encoded};
ghost use Rattle.writer.specs.Writing.{total_of, answered, writing, after, ReadsBack};

use crate::Outgoing;
use crate::pen::Pen;
use frame::{Content, Link, Test, TopologyChange};
use kind::Kind;
use refusal::Refusal;

// Writes the frame to the front of `out`, and answers how many octets it has.
pub fn write(frame: &Outgoing, out: &mut [u8]) -> Result<usize, Refusal>
    ensures answers { answered result ≡ writing frame.now out.old }
    ensures octets { out.new ≡ after frame.now out.old }
    ensures back { ReadsBack frame.now (answered result) out.new }
{
    let true = frame.content.in_values() else {
        return Err(Refusal::FieldValue);
    };
    let total = 14 + frame.content.kind().span();
    let true = total <= out.len() else {
        return Err(Refusal::NoRoom);
    };
    put_frame(frame, out);
    Ok(total)
}

#[tactic(auto, using(crate::proofs::Bodies::body_size, crate::proofs::Bodies::span_size))]
fn put_frame(frame: &Outgoing, out: &mut [u8])
    requires { total_of frame.now ≤ length out.old }
    ensures octets { out.new ≡ encoded frame.now ++ drop (length (encoded frame.now)) out.old }
    ensures size { length (encoded frame.now) ≡ total_of frame.now }
    ensures fits { FitsBody frame.now.content × (frame.now.sequence < 65536) }
{
    let mut pen = Pen { out, at: 0 };
    pen.put_head(frame.content.kind(), &frame.source);
    pen.put_content(&frame.content);
    pen.put_common(frame.sequence, &frame.domain);
    pen.put(&[0, 0]);
}

impl Pen<'_> {
    ghost use Rattle.writer.specs.Pens.{left, Puts};

    fn put_head(&mut self, kind: Kind, source: &[u8; 6])
        requires { 16 ≤ length (left self.old) }
        ensures { Puts (address_of (goes_to kind) ++ source.now ++ (0x88 ∷ 0xE3 ∷ []) ++ (0 ∷ 1 ∷ [])) self.old self.new }
    {
        self.put(kind.destination().address());
        self.put(source);
        self.put(&[0x88, 0xE3]);
        self.put(&[0x00, 0x01]);
    }

    fn put_content(&mut self, content: &Content<[u8; 6]>)
        requires { size_of (body_shown content.now) ≤ length (left self.old) }
        ensures puts { Puts (octets_of (body_shown content.now)) self.old self.new }
        ensures fits { FitsBody content.now }
    {
        match content {
            Content::Test(test) => self.put_test(test),
            Content::TopologyChange(change) => self.put_change(change),
            Content::LinkDown(link) => self.put_link(Kind::LinkDown, link),
            Content::LinkUp(link) => self.put_link(Kind::LinkUp, link),
        }
    }

    fn put_test(&mut self, test: &Test<[u8; 6]>)
        requires { 20 ≤ length (left self.old) }
        ensures puts { Puts (octets_of (body_shown (content.Test test.now))) self.old self.new }
        ensures fits { FitsBody (content.Test test.now) }
    {
        self.put(&[2, 18]);
        self.put_number(test.priority);
        self.put(&test.sender);
        self.put_number(u16::from(test.role));
        self.put_number(u16::from(test.state));
        self.put_number(test.transitions);
        self.put_stamp(test.stamp);
    }

    fn put_change(&mut self, change: &TopologyChange<[u8; 6]>)
        requires { 12 ≤ length (left self.old) }
        ensures puts { Puts (octets_of (body_shown (content.TopologyChange change.now))) self.old self.new }
        ensures fits { FitsBody (content.TopologyChange change.now) }
    {
        self.put(&[3, 10]);
        self.put_number(change.priority);
        self.put(&change.sender);
        self.put_number(change.interval);
    }

    fn put_link(&mut self, kind: Kind, link: &Link<[u8; 6]>)
        requires { 14 ≤ length (left self.old) }
        ensures puts { Puts (link_octets (type_of kind) link.now.sender (role_number link.now.role) link.now.interval (blocked_number link.now.blocked)) self.old self.new }
        ensures fits { FitsLink link.now }
    {
        self.put(&[kind.element_type(), 12]);
        self.put(&link.sender);
        self.put_number(u16::from(link.role));
        self.put_number(link.interval);
        self.put_number(u16::from(link.blocked));
    }

    fn put_common(&mut self, sequence: u16, domain: &[u8; 16])
        requires { 20 ≤ length (left self.old) }
        ensures { Puts (octets_of (common sequence (placed 0 domain.now))) self.old self.new }
    {
        self.put(&[1, 18]);
        self.put_number(sequence);
        self.put(domain);
    }
}
