// What is kept of a line while its characters come in.
ghost use Rattle.std.specs.Prelude.{◌<◌, ◌≤◌};
ghost use Rattle.hexline.specs.Held.{open_digit};

// The most octets that are kept of a line.
pub(crate) const KEPT: usize = 61;

// Where in a line the next character stands.
#[derive(Clone, Copy)]
pub(crate) enum Place {
    Between,
    // After the first digit of an octet, which has this value.
    Half(u8),
    Comment,
    // After a character that has no place in a line of octets.
    Bad,
}

// A line so far: its first octets, and where it stands. Callers copy a line, as the library's `ArrayVec` cannot be. Clauses
// see it by `holds`, a function of what still follows, which the value of a Model can't be.
#[derive(Clone, Copy)]
pub struct Line {
    pub(crate) kept: [u8; KEPT],
    pub(crate) count: usize,
    pub(crate) place: Place,
    ghost room: { count ≤ 61 },
    ghost small: { open_digit place < 16 },
}

// What a line says. Three answers by their names: an Option in a Result would have none for them.
#[derive(Clone, Copy)]
pub enum Reading<'a> {
    // It has no octet.
    Blank,
    // It has these octets, or begins with them where they are 61.
    Octets(&'a [u8]),
    // It is not made of octets.
    NotHex,
}
