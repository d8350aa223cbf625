// The accepted frames, in order.
ghost use Rattle.std.specs.Prelude.{◌≡◌, ℕ, suc, ◌<◌, true, [], ◌∷◌, ◌++◌, length, is_ok, IfOk, if◌then◌else◌};
ghost use Rattle.std.specs.List.{slice_get};
ghost use Rattle.std.specs.Option.{option_map};
ghost use Rattle.clash.specs.Clashes.{frame_at, count, same_sender, same_number, other_kind, partners, clash_lines, IsOnTrail};
ghost use Rattle.clash.specs.Notes.{Described, seen_in};
ghost use Rattle.clash.specs.Places.{last_below};
ghost use Rattle.clash.specs.Searches.{lines_left};
ghost use Rattle.clash.specs.Sightings.{shown};

use crate::clashes::Clashes;
use crate::noted::Noted;
use crate::sighting::Sighting;
use std::alloc::{AllocError, Global};
use std::collections::HashMap;
use std::marker::Model;

#[derive(Drop)]
pub struct History {
    pub(crate) noted: Vec<Noted>,
    // How many frames each sender has.
    counts: HashMap<[u8; 6], usize>,
    // One more than the place of the latest frame with each sequence number of each sender.
    numbers: HashMap<(u16, [u8; 6]), usize>,
}

// Clauses see the frames.
impl Model for History {
    ghost use Rattle.std.specs.Prelude.{List};
    ghost use Rattle.clash.specs.Sightings.{Seen};

    ghost Value = { List Seen };

    ghost use Rattle.clash.specs.Views.{frames_of, IsWhole};

    ghost view = { frames_of };

    ghost invariant = { IsWhole };
}

impl History {
    // A history with no frames.
    pub fn new(heap: Global) -> Result<History, AllocError>
        ensures { IfOk result (λ h. h ≡ []) }
    {
        Ok(History {
            noted: Vec::new(heap),
            counts: HashMap::new(heap),
            numbers: HashMap::new(heap),
        })
    }

    // How many frames there are.
    pub fn len(&self) -> usize
        ensures { result ≡ length self.now }
    {
        self.noted.len()
    }

    // The frames, with what stands beside them.
    pub fn noted(&self) -> &[Noted]
        ensures { seen_in result.now ≡ self.now }
    {
        self.noted.as_slice()
    }

    // The frame at place `j`.
    pub fn sighting(&self, j: usize) -> Option<Sighting>
        ensures { option_map shown result ≡ slice_get self.now j }
    {
        self.noted.get(j).map(|noted| noted.seen)
    }

    // How many frames have the sender of `s`.
    fn rank_of(&self, s: Sighting) -> usize
        ensures { result ≡ count (λ i. same_sender (shown s) (frame_at self.now i)) (length self.now) }
    {
        self.counts.get(&s.sender).copied().unwrap_or(0)
    }

    // One more than the place of the latest frame with the sender and sequence number of `s`, or 0.
    fn previous_of(&self, s: Sighting) -> usize
        ensures { result ≡ last_below (λ i. same_number (shown s) (frame_at self.now i)) (length self.now) }
    {
        let sender = s.sender;
        self.numbers
            .get(&(s.sequence, sender))
            .copied()
            .unwrap_or(0)
    }

    // The same of the latest with another kind, where `previous` is that of the latest of any kind.
    pub(crate) fn other_than(&self, s: Sighting, previous: usize) -> usize
        requires { (i : ℕ) → previous ≡ suc i → (i < length self.now) × (same_number (shown s) (frame_at self.now i) ≡ true) }
        ensures { result ≡ last_below (λ i. other_kind (shown s) (frame_at self.now i)) previous }
    {
        let Some(i) = previous.checked_sub(1) else {
            return 0;
        };
        let frame = self.noted[i];
        if s.kind == frame.seen.kind {
            frame.other
        } else {
            previous
        }
    }

    // What is to stand beside the frame `s`, were it noted now.
    fn described(&self, s: Sighting) -> Noted
        ensures { Described self.now (shown s) result }
    {
        let previous = self.previous_of(s);
        Noted {
            seen: s,
            rank: self.rank_of(s),
            previous,
            other: self.other_than(s, previous),
        }
    }

    // Adds a frame; where memory runs out, nothing has changed.
    pub fn note(&mut self, s: Sighting) -> Result<(), AllocError>
        ensures { self.new ≡ (if is_ok result then self.old ++ shown s ∷ [] else self.old) }
    {
        let sender = s.sender;
        let noted = self.described(s);
        self.counts.reserve(1)?;
        self.numbers.reserve(1)?;
        self.noted.push(noted)?;
        self.counts.insert(sender, noted.rank + 1)?;
        self.numbers.insert((s.sequence, sender), self.noted.len())?;
        Ok(())
    }

    // One more than the place of the latest frame that frame `j` may clash with, or 0.
    fn first_for(&self, j: usize) -> usize
        ensures trail { IsOnTrail self.now j result }
        ensures all { partners self.now j result ≡ clash_lines self.now j }
    {
        let Some(noted) = self.noted.get(j) else {
            return 0;
        };
        noted.other
    }

    // The lines of the earlier frames that frame `j` clashes with, newest first.
    pub fn clashes(&self, j: usize) -> Clashes<'_>
        ensures { lines_left result ≡ clash_lines self.now j }
    {
        Clashes {
            history: self,
            place: j,
            at: self.first_for(j),
        }
    }
}
