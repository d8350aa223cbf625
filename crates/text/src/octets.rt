// Octets as text: pairs of hexadecimal digits with dashes between them.
ghost use Rattle.std.specs.Prelude.{Some};
ghost use Rattle.text.specs.Text.{pair_text, octets_text};

use std::fmt;

#[derive(Clone, Copy)]
pub struct Octets<'a>(pub &'a [u8]);

#[derive(Clone, Copy)]
struct Pair(u8);

impl fmt::Display for Octets<'_> {
    ghost output = { λ octets. Some (octets_text octets.0.now) };

    fn fmt<W: fmt::Write>(&self, f: &mut fmt::Formatter<W>) -> fmt::Result {
        if let [first, rest @ ..] = self.0 {
            f.write(Pair(*first))?;
            for octet in rest {
                write!(f, "-{}", Pair(*octet))?;
            }
        }
        Ok(())
    }
}

impl fmt::Display for Pair {
    ghost output = { λ pair. Some (pair_text pair.0) };

    fn fmt<W: fmt::Write>(&self, f: &mut fmt::Formatter<W>) -> fmt::Result {
        let octet = self.0;
        write!(f, "{octet:02X}")
    }
}
