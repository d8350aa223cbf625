// The lists in which places stand: the free ones, and those of the frames that wait.
ghost use Rattle.std.specs.Prelude.{◌≡◌, ℕ, ◌+◌, ◌%◌, length};
ghost use Rattle.store.specs.Chains.{Once, Ends, total, held_in};

pub mod moves;

// The first place of a list, its last one, and how many stand in it.
#[derive(Clone, Copy)]
pub struct Lane {
    head: usize,
    tail: usize,
    len: u8,
}

// A place leads to the one behind it, and may be in hand. The number has one octet: a `usize` beside the flag would take 16
// octets in place of 2.
#[derive(Clone, Copy)]
pub struct Spot {
    next: u8,
    held: bool,
}

// Every place stands in one list or is held; list 0 has the free places. The lists lead through one array, since a store
// has no heap and a fixed memory. A contract sees them by `spots` and not by a model, since these are functions of every
// number, and only what has a code can be a model.
// `taken` counts the places that came into the hand and `given` those that left it, both modulo 256.
#[derive(Drop)]
pub struct Chains {
    lanes: [Lane; 101],
    places: [Spot; 128],
    taken: u8,
    given: u8,
    ghost lists: { length lanes ≡ 101 },
    ghost sites: { length places ≡ 128 },
    ghost once: { Once lanes places },
    ghost ends: { Ends lanes places },
    ghost all: { total lanes places ≡ 128 },
    ghost counted: { taken ≡ (given + held_in places) % 256 },
}
