// A frame in the history, with what is known of the frames before it.
ghost use Rattle.std.specs.Prelude.{◌≡◌, ◌-◌, ◌≤◌, nat_lt};

use crate::sighting::Sighting;

// It names other frames by their places, since a frame in a vector that grows can't hold a reference to another.
#[derive(Clone, Copy)]
pub struct Noted {
    pub seen: Sighting,
    // how many earlier frames have this sender
    pub(crate) rank: usize,
    // one more than the place of the latest earlier frame with this sender and sequence number, or 0: an `Option` takes twice as much
    pub(crate) previous: usize,
    // the same of the latest of them with another kind
    pub(crate) other: usize,
}

// Frames of one sender clash only if their ranks differ by no more: fewer than 32,768 of its frames lie between them.
const WINDOW: usize = 32768;

impl Noted {
    // Whether `earlier`, of the same sender, lies too far back to clash.
    pub(crate) fn is_past(&self, earlier: &Noted) -> bool
        requires { earlier.now.rank ≤ self.now.rank }
        ensures { result ≡ nat_lt 32768 (self.now.rank - earlier.now.rank) }
    {
        self.rank - earlier.rank > WINDOW
    }
}
