// What becomes of a line: nothing, no octets, or a frame that is accepted or refused.
ghost use Rattle.std.specs.Prelude.{◌≡◌, ℕ, List, []};
ghost use Rattle.hexline.specs.Line.{content_of};
ghost use Rattle.hexline.specs.Meaning.{holds};
ghost use Rattle.dump.specs.Lines.{line_verdict, verdict_shown};

use frame::{Received, read};
use hexline::{Line, Reading};
use refusal::Refusal;

#[derive(Clone, Copy)]
pub enum Verdict<'a> {
    Blank,
    NotOctets,
    // The frame that its octets are, or why they are none.
    Read(Result<Received<'a>, Refusal>),
}

// The verdict on a line whose characters have all been fed.
pub fn judge<'a>(line: &'a Line) -> Verdict<'a>
    ensures { (characters : List ℕ) → holds line.now [] ≡ content_of characters → verdict_shown result ≡ line_verdict characters }
{
    match line.reading() {
        Reading::Blank => Verdict::Blank,
        Reading::NotHex => Verdict::NotOctets,
        Reading::Octets(octets) => Verdict::Read(read(octets)),
    }
}
