// The search for the clashes of one frame, back over the frames before it.
ghost use Rattle.std.specs.Prelude.{◌≡◌};
ghost use Rattle.clash.specs.Clashes.{IsOnTrail};

use crate::history::History;

// The lines that are left of those of the frames that the frame at `place` clashes with, newest first.
#[derive(Drop)]
pub struct Clashes<'a> {
    pub(crate) history: &'a History,
    pub(crate) place: usize,
    // One more than the place of the latest frame that may be the next, of those with the sender and number of the frame and another kind, or 0.
    pub(crate) at: usize,
    ghost trail: { IsOnTrail history.now place at },
}

impl<'a> Iterator for Clashes<'a> {
    type Item = usize;

    ghost use Rattle.std.specs.Iterator.{YieldsFirst, item_count};
    ghost use Rattle.clash.specs.Searches.{lines_left};

    ghost next_gives = { YieldsFirst lines_left };

    ghost remaining = { item_count lines_left };

    fn next(&mut self) -> Option<usize> {
        let i = self.at.checked_sub(1)?;
        let history = self.history;
        let frame = history.noted[self.place];
        let earlier = history.noted[i];
        if frame.is_past(&earlier) {
            self.at = 0;
            return None;
        }
        self.at = history.other_than(frame.seen, earlier.previous);
        Some(earlier.seen.line)
    }
}
