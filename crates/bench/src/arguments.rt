// The words of a line that stand for something, taken one by one.
use crate::bad_line::BadLine;
use switch::Port;
use words::{Words, decimal};

// Refuses another number of words than this.
pub fn expect_words(words: &Words<'_>, count: usize) -> Result<(), BadLine> {
    if words.count() == count {
        Ok(())
    } else {
        Err(BadLine::WordCount)
    }
}

// A decimal number, which is 65,535 for all above it.
pub fn take_number(words: &mut Words<'_>) -> Result<u16, BadLine> {
    decimal(words.take()).ok_or(BadLine::NotANumber)
}

// No `TryFrom`: ports know nothing of words, and the refusal is the line's.
pub fn take_port(words: &mut Words<'_>) -> Result<Port, BadLine> {
    match words.take() {
        b"1" => Ok(Port::One),
        b"2" => Ok(Port::Two),
        _ => Err(BadLine::NoSuchPort),
    }
}
