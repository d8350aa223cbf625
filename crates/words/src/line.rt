// A line, cut into its words.
ghost use Rattle.std.specs.Prelude.{◌≡◌, ◌≤◌, length};
ghost use Rattle.std.specs.List.{prefix_len, position_or_len};
ghost use Rattle.words.specs.Cuts.{is_space, begins_comment, before_comment, first_word, past_word, word_count};

// What has not been read yet of a line.
#[derive(Clone, Copy)]
pub struct Words<'a> {
    pub rest: &'a [u8],
}

fn is_space(c: u8) -> bool
    ensures { result ≡ is_space c }
{
    matches!(c, b' ' | b'\t' | b'\r')
}

// How many characters stand before the first number sign. Here and twice below a chain of one line: one function for them
// would be told the test, which is all that they say.
fn comment_start(line: &[u8]) -> usize
    ensures value { result ≡ position_or_len begins_comment line.now }
    ensures bound { result ≤ length line.now }
{
    line.iter().take_while(|c| **c != b'#').count()
}

// How many spaces a text begins with.
fn space_len(text: &[u8]) -> usize
    ensures value { result ≡ prefix_len is_space text.now }
    ensures bound { result ≤ length text.now }
{
    text.iter().take_while(|c| is_space(**c)).count()
}

// How many characters stand before the first space.
fn word_len(text: &[u8]) -> usize
    ensures value { result ≡ position_or_len is_space text.now }
    ensures bound { result ≤ length text.now }
{
    text.iter().take_while(|c| !is_space(**c)).count()
}

impl<'a> Words<'a> {
    // The words before the comment of a line.
    pub fn of(line: &'a [u8]) -> Words<'a>
        ensures { result.rest.now ≡ before_comment line.now }
    {
        Words {
            rest: &line[..comment_start(line)],
        }
    }

    // How many words are left.
    pub fn count(&self) -> usize
        ensures { result ≡ word_count self.now.rest.now }
    {
        self.rest
            .split(|c| is_space(*c))
            .filter(|word| !word.is_empty())
            .count()
    }

    // Takes the next word, which is empty where none is left: no Option, since no command has an empty name.
    pub fn take(&mut self) -> &'a [u8]
        ensures word { result.now ≡ first_word self.old.rest.now }
        ensures rest { self.new.rest.now ≡ past_word self.old.rest.now }
    {
        let text = &self.rest[space_len(self.rest)..];
        let (word, rest) = text.split_at(word_len(text));
        self.rest = rest;
        word
    }
}
