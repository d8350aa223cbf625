// The plain chip: it learns no address, and keeps both port states in one octet.
#![tactic(auto)]

ghost use Rattle.std.specs.Prelude.{◌≡◌};
ghost use Rattle.chip.specs.Octet.{state_number, state_of, chip_meaning, chip_sound};

use refusal::Refusal;
use switch::{Address, Port, PortState, Switch};

const SIZE: usize = 0;

// The chip has one octet for both states: port 1 in its low four bits, port 2 in the others.
#[derive(Clone, Copy)]
pub struct PlainChip {
    states: u8,
}

// A state as the octet has it. No `From`: the number is the chip's own.
fn number_of(state: PortState) -> u8
    ensures { result ≡ state_number state }
{
    state as u8
}

// No `TryFrom`: the octet may hold any number, and reading it cannot fail.
fn state_of(number: u8) -> PortState
    ensures { result ≡ state_of number }
{
    match number {
        0 => PortState::Disabled,
        1 => PortState::Blocked,
        _ => PortState::Forwarding,
    }
}

impl Switch for PlainChip {
    ghost meaning = { λ s. chip_meaning s.states };

    ghost limit = { 0 };

    ghost sound = { λ s. chip_sound s.states };

    fn new() -> Self {
        PlainChip { states: 0x11 }
    }

    // an arm for each port: an index or a shift by the port would say less
    fn set_port(&mut self, port: Port, state: PortState) {
        match port {
            Port::One => self.states = self.states / 16 * 16 + number_of(state),
            Port::Two => self.states = self.states % 16 + 16 * number_of(state),
        }
    }

    fn learn(&mut self, address: Address, _port: Port) -> Result<(), Refusal> {
        if address.is_group() {
            return Err(Refusal::GroupAddress);
        }
        Err(Refusal::TableFull)
    }

    fn clear(&mut self) {}

    fn port_state(&self, port: Port) -> PortState {
        match port {
            Port::One => state_of(self.states % 16),
            Port::Two => state_of(self.states / 16),
        }
    }

    fn port_of(&self, _address: Address) -> Option<Port> {
        None
    }

    fn capacity(&self) -> usize {
        SIZE
    }
}
