// What every kind of switch does, told by its meaning alone.
ghost use Rattle.std.specs.Prelude.{◌≡◌, ℕ};
ghost use Rattle.switch.specs.Meanings.{Meaning, Sound, fresh, state_at};
ghost use Rattle.switch.specs.Calls.{with_port, cleared, learned, learn_answer};
ghost use Rattle.switch.specs.Laws.{Found, Gone, WithinRoom, SameAnswers};
ghost use Rattle.switch.specs.Data.{heard, leaves_by, NeverBack};

use crate::address::Address;
use crate::port::{Port, PortState};
use refusal::Refusal;

pub trait Switch {
    ghost meaning: { Self → Meaning };

    // K: how many addresses it can know.
    ghost limit: { ℕ };

    fn new() -> Self
        ensures { meaning result ≡ fresh };

    fn set_port(&mut self, port: Port, state: PortState)
        ensures { meaning self.new ≡ with_port port state (meaning self.old) };

    fn learn(&mut self, address: Address, port: Port) -> Result<(), Refusal>
        ensures answer { result ≡ learn_answer limit address.octets (meaning self.old) }
        ensures after { meaning self.new ≡ learned limit address.octets port (meaning self.old) };

    fn clear(&mut self)
        ensures { meaning self.new ≡ cleared (meaning self.old) };

    fn port_state(&self, port: Port) -> PortState
        ensures { result ≡ state_at port (meaning self.now) };

    fn port_of(&self, address: Address) -> Option<Port>
        ensures { result ≡ (meaning self.now).known address.octets };

    fn capacity(&self) -> usize
        ensures { result ≡ limit };

    ghost sound: { (s : Self) → Sound limit (meaning s) };

    // Learns, with what that means in plain words.
    final fn note(&mut self, address: Address, port: Port) -> Result<(), Refusal>
        ensures answer { result ≡ learn_answer limit address.octets (meaning self.old) }
        ensures after { meaning self.new ≡ learned limit address.octets port (meaning self.old) }
        ensures found { Found address.octets port (meaning self.old) (meaning self.new) result }
    {
        self.learn(address, port)
    }

    // Clears, with what that means in plain words.
    final fn forget(&mut self)
        ensures after { meaning self.new ≡ cleared (meaning self.old) }
        ensures gone { Gone (meaning self.old) (meaning self.new) }
    {
        self.clear();
    }

    // The capacity, with what it means in plain words.
    final fn room(&self) -> usize
        ensures answer { result ≡ limit }
        ensures within { WithinRoom result (meaning self.now) }
        ensures alike { SameAnswers }
    {
        self.capacity()
    }

    // Takes a data frame: learns its source and answers the port that it leaves by, if it leaves.
    final fn relay(&mut self, source: Address, destination: Address, came_by: Port) -> Option<Port>
        ensures answer { result ≡ leaves_by limit source.octets destination.octets came_by (meaning self.old) }
        ensures after { meaning self.new ≡ heard limit source.octets came_by (meaning self.old) }
        ensures onward { NeverBack came_by result }
    {
        if self.port_state(came_by) != PortState::Forwarding {
            return None;
        }
        // a source that is not learned is no cause to stop the frame
        let _ = self.learn(source, came_by);
        let onward = came_by.other();
        if self.port_state(onward) != PortState::Forwarding {
            return None;
        }
        if self.port_of(destination) == Some(came_by) {
            return None;
        }
        Some(onward)
    }
}
