// Decimal numbers of any length.
ghost use Rattle.std.specs.Prelude.{◌≡◌};
ghost use Rattle.words.specs.Numbers.{decimal_of};

// The value of a word of digits, and 65,535 for all above it.
pub fn decimal(word: &[u8]) -> Option<u16>
    ensures { result ≡ decimal_of word.now }
{
    if word.is_empty() {
        return None;
    }
    let mut value: u16 = 0;
    for c in word {
        let digit = char::from(*c).to_digit(10)?;
        value = value.saturating_mul(10).saturating_add(digit as u16);
    }
    Some(value)
}
