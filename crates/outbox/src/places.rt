// Four lent places for frames, of which the first `count` are taken.
ghost use Rattle.std.specs.Prelude.{◌≡◌};
ghost use Rattle.outbox.specs.Boxes.{written, pushed, emptied, fresh, Laid};

use crate::message::Message;
use settings::Settings;
use switch::Port;

// A place for one frame: its octets up to `total`, and the port that it leaves by. Places are lent, and their old octets
// stay: hence an array with a total, and in the outbox an array of places with a count.
#[derive(Clone, Copy)]
pub struct Place {
    pub octets: [u8; 60],
    pub port: Port,
    pub total: usize,
}

#[derive(Clone, Copy)]
pub struct Outbox {
    pub places: [Place; 4],
    pub count: usize,
}

impl Place {
    // Takes a frame; what stands past its total stays.
    pub fn hold(&mut self, settings: &Settings, port: Port, message: Message, sequence: u16)
        ensures { self.new ≡ written settings.now (record { port = port; message = message; sequence = sequence }) self.old }
    {
        self.total = message.write(settings, sequence, &mut self.octets);
        self.port = port;
    }
}

impl Outbox {
    // Four places of zero octets, none of them taken.
    #[tactic(auto, using(crate::proofs::Lays::lays))]
    pub fn new() -> Outbox
        ensures made { result ≡ fresh }
        ensures laid { Laid }
    {
        let empty = Place {
            octets: [0; 60],
            port: Port::One,
            total: 0,
        };
        Outbox {
            places: [empty; 4],
            count: 0,
        }
    }

    // No place is taken; what stands in them stays.
    pub fn empty(&mut self)
        ensures { self.new ≡ emptied self.old }
    {
        self.count = 0;
    }

    // Puts a frame into the next place; where all four are taken, nowhere.
    #[tactic(auto, unfolding(crate::specs::Boxes::pushed))]
    pub fn push(&mut self, settings: &Settings, port: Port, message: Message, sequence: u16)
        ensures { self.new ≡ pushed settings.now (record { port = port; message = message; sequence = sequence }) self.old }
    {
        // by index: the proof did not close with `get_mut`, which says nothing of an array field afterwards
        if self.count < 4 {
            self.places[self.count].hold(settings, port, message, sequence);
            self.count += 1;
        }
    }
}
