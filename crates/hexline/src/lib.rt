// Reads a line of hexadecimal octets, one character at a time.
#![tactic(auto)]

ghost use Rattle.std.specs.Prelude.{◌≡◌, ℕ, ◌<◌, List, [], ◌∷◌, Some};
ghost use Rattle.hexline.specs.Line.{content_of, digit_of, is_gap, octets_of};
ghost use Rattle.hexline.specs.Held.{open_digit};
ghost use Rattle.hexline.specs.Meaning.{begun_with, holds, octets_from, shown};

mod reader;

use reader::{KEPT, Place};
pub use reader::{Line, Reading};

// The value of a hexadecimal digit.
fn digit(c: u8) -> Option<u8>
    ensures { result ≡ digit_of c }
{
    let digit = char::from(c).to_digit(16)?;
    Some(digit as u8)
}

// Whether a character may stand between octets and means nothing there.
fn is_gap(c: u8) -> bool
    ensures { result ≡ is_gap c }
{
    matches!(c, b' ' | b'\t' | b'\r' | b':' | b'-')
}

// Where a line stands after `c`, which begins an octet or stands between two.
fn begin(c: u8) -> Place
    ensures rest { (rest : List ℕ) → octets_from result rest ≡ octets_of (c ∷ rest) }
    ensures small { open_digit result < 16 }
{
    if c == b'#' {
        return Place::Comment;
    }
    if is_gap(c) {
        return Place::Between;
    }
    match digit(c) {
        Some(high) => Place::Half(high),
        None => Place::Bad,
    }
}

impl Line {
    // A line of which nothing has been read.
    pub fn new() -> Line
        ensures { (rest : List ℕ) → holds result rest ≡ content_of rest }
    {
        Line {
            kept: [0; KEPT],
            count: 0,
            place: Place::Between,
        }
    }

    // Keeps one more octet, where there is room for it.
    fn keep(&mut self, octet: u8)
        ensures place { self.new.place ≡ self.old.place }
        ensures octets { (more : List ℕ) → begun_with self.new (Some more) ≡ begun_with self.old (Some (octet ∷ more)) }
    {
        if self.count < KEPT {
            self.kept[self.count] = octet;
            self.count += 1;
        }
    }

    // Takes the next character of the line.
    pub fn feed(&mut self, c: u8)
        ensures { (rest : List ℕ) → holds self.new rest ≡ holds self.old (c ∷ rest) }
    {
        match self.place {
            Place::Between => self.place = begin(c),
            Place::Half(high) => match digit(c) {
                Some(low) => {
                    self.keep(16 * high + low);
                    self.place = Place::Between;
                }
                None => self.place = Place::Bad,
            },
            Place::Comment | Place::Bad => {}
        }
    }

    // What the line says if it ends here.
    pub fn reading(&self) -> Reading<'_>
        ensures { shown result ≡ holds self.now [] }
    {
        match self.place {
            Place::Half(_) | Place::Bad => Reading::NotHex,
            Place::Between | Place::Comment => match &self.kept[0..self.count] {
                [] => Reading::Blank,
                octets => Reading::Octets(octets),
            },
        }
    }
}

// The line of these characters, whose `reading` says what they hold.
pub fn read_line(text: &[u8]) -> Line
    ensures { holds result [] ≡ content_of text.now }
{
    let mut line = Line::new();
    for c in text {
        line.feed(*c);
    }
    line
}
