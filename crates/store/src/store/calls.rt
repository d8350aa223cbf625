// The calls of a store: five that change it, and four questions.
ghost use Rattle.std.specs.Prelude.{◌≡◌, ℕ, ◌+◌, ◌<◌, ◌≤◌, cond, length, nat_lt, slice_index_or, slice_set};
ghost use Rattle.store.specs.Counting.{one};
ghost use Rattle.store.specs.Contents.{contents, no_frame};
ghost use Rattle.store.specs.Model.{wrong_size, wrong_length, new_answer, put_answer, PutInto, take_answer, take_after, Held, pass_answer, pass_after, waiting_answer, shown, octets_answer, spend_answer, spend_after, waiting_in, any_waits};
ghost use Rattle.store.specs.Laws.{Laws, Reached, in_hands, stands_in};
ghost use Rattle.store.specs.Chains.{pushed};
ghost use Rattle.store.specs.Spots.{spots};
ghost use Rattle.store.specs.View.{lane_answer, is_held, held_answer};

use crate::chains::Chains;
use crate::frame::Frame;
use crate::hand::{HandedBack, InHand, Put};
use crate::store::Store;
use refusal::Refusal;

// The list of the free places.
const FREE: usize = 0;

// The list of a direction, behind that of the free places.
fn lane_of(links: usize, link: usize, direction: usize) -> Result<usize, Refusal>
    requires { links ≤ 50 }
    ensures { result ≡ lane_answer links link direction }
{
    if link >= links {
        return Err(Refusal::NoSuchLink);
    }
    if direction >= 2 {
        return Err(Refusal::NoSuchDirection);
    }
    Ok(1 + 2 * link + direction)
}

fn is_wrong_size(links: usize) -> bool
    ensures { result ≡ wrong_size links }
{
    !(2..=50).contains(&links)
}

fn is_wrong_length(octets: &[u8]) -> bool
    ensures { result ≡ wrong_length octets.now }
{
    !(50..=60).contains(&octets.len())
}

// Whether a frame in hand is of the store with this number, and its place is in hand there.
fn holds(chains: &Chains, number: u32, frame: &InHand) -> bool
    ensures { result ≡ is_held frame.now number (spots chains.now) }
{
    frame.store == number && chains.is_held(frame.place)
}

// The place of a frame in hand goes behind all of a list. A frame that is not in hand there comes back.
fn spend(chains: &mut Chains, number: u32, frame: InHand, list: usize) -> Result<(), HandedBack>
    requires { list < 101 }
    ensures answer { result ≡ held_answer frame (is_held frame number (spots chains.old)) }
    ensures after { spots chains.new ≡ cond (is_held frame number (spots chains.old)) (pushed list frame.place (spots chains.old)) (spots chains.old) }
{
    if !holds(chains, number, &frame) {
        return Err(HandedBack {
            frame,
            refusal: Refusal::NotInHand,
        });
    }
    let InHand { store: _, place } = frame;
    chains.push(list, place);
    Ok(())
}

// Copies the octets into one of the frames.
fn fill_at(frames: &mut [Frame], place: usize, octets: &[u8])
    requires { (place < length frames.old) × (length octets.now ≤ 60) }
    ensures { (frames.new ≡ slice_set frames.old place (slice_index_or frames.new place no_frame)) × (contents (slice_index_or frames.new place no_frame) ≡ octets.now) }
{
    frames[place].fill(octets);
}

impl Store {
    pub fn new(number: u32, links: usize) -> Result<Self, Refusal>
        ensures { result ≡ new_answer number links }
    {
        if is_wrong_size(links) {
            return Err(Refusal::RingSize);
        }
        Ok(Store {
            number,
            links,
            chains: Chains::new(),
            frames: [Frame::empty(); 128],
        })
    }

    // A frame joins a queue, if a place is free.
    pub fn put(&mut self, link: usize, direction: usize, octets: &[u8]) -> Result<Put, Refusal>
        ensures answer { result ≡ put_answer link direction octets.now self.old }
        ensures after { (p : ℕ) × PutInto link direction octets.now self.old self.new p }
    {
        if is_wrong_length(octets) {
            return Err(Refusal::FrameSize);
        }
        let lane = lane_of(self.links, link, direction)?;
        let Some(free) = self.chains.pop(FREE) else {
            return Ok(Put::Lost);
        };
        fill_at(&mut self.frames, free, octets);
        self.chains.push(lane, free);
        Ok(Put::Waits)
    }

    // The first frame of a queue comes into the caller's hand.
    pub fn take(&mut self, link: usize, direction: usize) -> Result<InHand, Refusal>
        ensures answer { result ≡ take_answer link direction self.old }
        ensures after { self.new ≡ take_after link direction self.old }
        ensures held { Held result self.new }
    {
        let lane = lane_of(self.links, link, direction)?;
        let Some(place) = self.chains.pop(lane) else {
            return Err(Refusal::NothingWaits);
        };
        Ok(InHand {
            store: self.number,
            place,
        })
    }

    // A frame in hand joins a queue; it keeps its place.
    pub fn pass_on(
        &mut self,
        frame: InHand,
        link: usize,
        direction: usize,
    ) -> Result<(), HandedBack>
        ensures answer { result ≡ pass_answer frame link direction self.old }
        ensures after { self.new ≡ pass_after frame link direction self.old }
    {
        // No `map_err` with `?`: its closure would take the frame where there is such a queue too.
        match lane_of(self.links, link, direction) {
            Ok(lane) => spend(&mut self.chains, self.number, frame, lane),
            Err(refusal) => Err(HandedBack { frame, refusal }),
        }
    }

    // A frame in hand is gone, and its place is free.
    pub fn drop_frame(&mut self, frame: InHand) -> Result<(), HandedBack>
        ensures answer { result ≡ spend_answer frame self.old }
        ensures after { self.new ≡ spend_after frame self.old }
    {
        spend(&mut self.chains, self.number, frame, FREE)
    }

    // A frame that arrived where it is meant for leaves the store as a dropped one does.
    pub fn take_home(&mut self, frame: InHand) -> Result<(), HandedBack>
        ensures answer { result ≡ spend_answer frame self.old }
        ensures after { self.new ≡ spend_after frame self.old }
    {
        self.drop_frame(frame)
    }

    // The octets of a frame in hand, lent.
    pub fn octets(&self, frame: &InHand) -> Result<&[u8], Refusal>
        ensures { shown result ≡ octets_answer frame.now self.now }
    {
        if !holds(&self.chains, self.number, frame) {
            return Err(Refusal::NotInHand);
        }
        Ok(self.frames[frame.place].octets())
    }

    // How many frames wait in a queue.
    pub fn waiting(&self, link: usize, direction: usize) -> Result<u8, Refusal>
        ensures { result ≡ waiting_answer link direction self.now }
    {
        let lane = lane_of(self.links, link, direction)?;
        Ok(self.chains.len(lane))
    }

    // How many places are free.
    pub fn free(&self) -> u8
        ensures answer { result ≡ self.now.free }
        ensures rest { waiting_in self.now + in_hands self.now + result ≡ 128 }
        ensures once { (p : ℕ) → stands_in self.now p ≤ one (nat_lt p 128) }
        ensures reached { Reached self.now.number self.now.links self.now }
        ensures few { self.now.links ≤ 50 }
        ensures laws { Laws }
    {
        self.chains.len(FREE)
    }

    // Whether a frame waits in any queue.
    pub fn anything_waits(&self) -> bool
        ensures { result ≡ any_waits self.now }
    {
        self.free() + self.chains.in_hand() < 128
    }
}
