// The two moves, the first of a list into the hand and a place in hand to the end of a list; and what can be asked.
ghost use Rattle.std.specs.Prelude.{◌≡◌, ℕ, ◌+◌, ◌<◌, true, false, length};
ghost use Rattle.store.specs.Chains.{first_of, popped, pushed, all_free, holdings};
ghost use Rattle.store.specs.Spots.{spots};

use crate::chains::{Chains, Lane, Spot};

impl Chains {
    // All places are free.
    pub(crate) fn new() -> Self
        ensures { spots result ≡ all_free }
    {
        let places = std::array::from_fn(
            |place|
                requires { place < 128 }
                ensures { (result.next ≡ place + 1) × (result.held ≡ false) }
            {
                Spot {
                    next: place as u8 + 1,
                    held: false,
                }
            },
        );
        let empty = Lane {
            head: 0,
            tail: 0,
            len: 0,
        };
        let mut lanes = [empty; 101];
        lanes[0] = Lane {
            head: 0,
            tail: 127,
            len: 128,
        };
        Chains {
            lanes,
            places,
            taken: 0,
            given: 0,
        }
    }

    // Takes the first place of a list into the hand.
    pub(crate) fn pop(&mut self, list: usize) -> Option<usize>
        requires { list < 101 }
        ensures answer { result ≡ first_of ((spots self.old).lanes list) }
        ensures after { spots self.new ≡ popped list (spots self.old) }
    {
        let Lane { head, tail: _, len } = self.lanes[list];
        if len == 0 {
            return None;
        }
        let next = self.places[head].next;
        let lane = &mut self.lanes[list];
        lane.head = next as usize;
        lane.len = len - 1;
        self.places[head].held = true;
        self.taken = self.taken.wrapping_add(1);
        Some(head)
    }

    // Puts a place in hand behind all of a list.
    pub(crate) fn push(&mut self, list: usize, place: usize)
        requires { (list < 101) × ((spots self.old).hand place ≡ true) }
        ensures { spots self.new ≡ pushed list place (spots self.old) }
    {
        let Lane { head, tail, len } = self.lanes[list];
        let head = if len == 0 {
            place
        } else {
            self.places[tail].next = place as u8;
            head
        };
        self.lanes[list] = Lane {
            head,
            tail: place,
            len: len + 1,
        };
        self.places[place].held = false;
        self.given = self.given.wrapping_add(1);
    }

    pub(crate) fn is_held(&self, place: usize) -> bool
        ensures { result ≡ (spots self.now).hand place }
    {
        place < 128 && self.places[place].held
    }

    // How many places are in hand.
    pub(crate) fn in_hand(&self) -> u8
        ensures { result ≡ holdings (spots self.now) }
    {
        self.taken.wrapping_sub(self.given)
    }

    pub(crate) fn len(&self, list: usize) -> u8
        requires { list < 101 }
        ensures { result ≡ length ((spots self.now).lanes list) }
    {
        self.lanes[list].len
    }
}
