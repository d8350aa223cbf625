// A switch with a table of 64 entries, of which the first `len` are in use. An `ArrayVec` in their place could not be copied.
ghost use Rattle.std.specs.Prelude.{◌≡◌, ◌≤◌, length, take, position};
ghost use Rattle.std.specs.List.{IsDistinct, IsDistinct-prop};
ghost use Rattle.std.specs.Str.{bytes_eq};
ghost use Rattle.table.specs.Entries.{table_meaning, addresses, is_for};
ghost use Rattle.table.specs.Owed.{table_sound};

use crate::entry::Entry;
use refusal::Refusal;
use switch::{Address, Port, PortState, Switch};

const SIZE: usize = 64;

#[derive(Clone, Copy)]
pub struct TableSwitch {
    first: PortState,
    second: PortState,
    entries: [Entry; 64],
    len: usize,
    ghost whole: { length entries ≡ 64 },
    ghost few: { len ≤ 64 },
    ghost once: { IsDistinct bytes_eq (addresses (take len entries)) } by { IsDistinct-prop bytes_eq (addresses (take len entries)) },
}

impl TableSwitch {
    // The place of the entry of an address, if it is known.
    fn place_of(&self, address: Address) -> Option<usize>
        ensures { result ≡ position (is_for address.octets) (take self.now.len self.now.entries) }
    {
        self.entries[..self.len]
            .iter()
            .position(|entry| entry.address == address)
    }
}

impl Switch for TableSwitch {
    ghost meaning = { λ s. table_meaning s.first s.second s.entries s.len };

    ghost limit = { 64 };

    ghost sound = { λ s. table_sound s.first s.second s.entries s.len s.whole s.few s.once };

    #[tactic(auto, using(crate::proofs::Tables::none_twice))]
    fn new() -> Self {
        let unused = Entry {
            address: Address::from([0; 6]),
            port: Port::One,
        };
        TableSwitch {
            first: PortState::Blocked,
            second: PortState::Blocked,
            entries: [unused; 64],
            len: 0,
        }
    }

    // an arm for each port: an array indexed by the port would say less
    fn set_port(&mut self, port: Port, state: PortState) {
        match port {
            Port::One => self.first = state,
            Port::Two => self.second = state,
        }
    }

    fn learn(&mut self, address: Address, port: Port) -> Result<(), Refusal> {
        if address.is_group() {
            return Err(Refusal::GroupAddress);
        }
        if let Some(place) = self.place_of(address) {
            self.entries[place].port = port;
            return Ok(());
        }
        if self.len == SIZE {
            return Err(Refusal::TableFull);
        }
        self.entries[self.len] = Entry { address, port };
        self.len += 1;
        Ok(())
    }

    #[tactic(auto, using(crate::proofs::Tables::none_twice))]
    fn clear(&mut self) {
        self.len = 0;
    }

    fn port_state(&self, port: Port) -> PortState {
        match port {
            Port::One => self.first,
            Port::Two => self.second,
        }
    }

    // the entry itself, so that no place has to be looked up again
    fn port_of(&self, address: Address) -> Option<Port> {
        self.entries[..self.len]
            .iter()
            .find(|entry| entry.address == address)
            .map(|entry| entry.port)
    }

    fn capacity(&self) -> usize {
        SIZE
    }
}
