// Any other switch with its ring ports 1 and 2 exchanged.
#![tactic(auto)]

ghost use Rattle.std.specs.Prelude.{◌≡◌};
ghost use Rattle.turned.specs.Turning.{exchanged, TurnedTwice};
ghost use Rattle.turned.specs.Exchange.{exchanged_sound};

use refusal::Refusal;
use switch::{Address, Port, PortState, Switch};

#[derive(Clone, Copy)]
pub struct Turned<S> {
    inner: S,
}

impl<S> Turned<S> {
    #[tactic(auto, using(crate::specs::Exchange::turned_twice))]
    pub fn of(inner: S) -> Self
        ensures holds { result.inner ≡ inner }
        ensures twice { TurnedTwice }
    {
        Turned { inner }
    }
}

impl<S: Switch> Switch for Turned<S> {
    ghost meaning = { λ s. exchanged (S.Switch.meaning s.inner) };

    ghost limit = { S.Switch.limit };

    ghost sound = { λ s. exchanged_sound _ _ (S.Switch.sound s.inner) };

    fn new() -> Self {
        Turned { inner: S::new() }
    }

    fn set_port(&mut self, port: Port, state: PortState) {
        self.inner.set_port(port.other(), state);
    }

    fn learn(&mut self, address: Address, port: Port) -> Result<(), Refusal> {
        self.inner.learn(address, port.other())
    }

    fn clear(&mut self) {
        self.inner.clear();
    }

    fn port_state(&self, port: Port) -> PortState {
        self.inner.port_state(port.other())
    }

    fn port_of(&self, address: Address) -> Option<Port> {
        self.inner.port_of(address).map(Port::other)
    }

    fn capacity(&self) -> usize {
        self.inner.capacity()
    }
}
