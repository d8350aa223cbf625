// What the rows do: tests and announcements.
ghost use Rattle.std.specs.Prelude.{◌≡◌, ◌≤◌, Some};
ghost use Rattle.switch.specs.declared.port.Port.TheVariants.{One, Two};
ghost use Rattle.outbox.specs.Boxes.{pushed_all};
ghost use Rattle.manager.specs.Machines.{numbered, with_test, with_topology};
ghost use Rattle.manager.specs.Rows.{pair, role_of, ring_in, test_at, change_in};

use crate::state::{Manager, State};
use frame::{PortRole, RingState};
use outbox::{Message, Outbox};
use switch::Port;

impl State {
    // The ring state that a Test tells.
    fn ring(self) -> RingState
        ensures { result ≡ ring_in self }
    {
        match self {
            State::ChkRc => RingState::Closed,
            State::AcStat1 | State::PrmUp | State::ChkRo => RingState::Open,
        }
    }
}

impl Manager {
    // One sending to both ports, under one sequence number.
    fn send(&mut self, out: &mut Outbox, first: Message, second: Message)
        ensures machine { self.new ≡ numbered self.old }
        ensures sends { out.new ≡ pushed_all self.old.setup (pair first second self.old.sequence) out.old }
    {
        out.push(&self.settings, Port::One, first, self.sequence);
        out.push(&self.settings, Port::Two, second, self.sequence);
        self.sequence = self.sequence.wrapping_add(1);
    }

    fn role_of(&self, port: Port) -> PortRole
        ensures { result ≡ role_of port self.now }
    {
        if port == self.primary {
            PortRole::Primary
        } else {
            PortRole::Secondary
        }
    }

    fn test_at(&self, port: Port, stamp: u32) -> Message
        ensures { result ≡ test_at port stamp self.now }
    {
        Message::Test {
            role: self.role_of(port),
            ring: self.state.ring(),
            transitions: self.transitions,
            stamp,
        }
    }

    // Tests the ring, and starts the test timer with the default interval, which is read here and not at each call.
    pub(crate) fn test(&mut self, out: &mut Outbox, stamp: u32)
        ensures machine { self.new ≡ with_test (Some self.old.setup.default_test) (numbered self.old) }
        ensures sends { out.new ≡ pushed_all self.old.setup (pair (test_at One stamp self.old) (test_at Two stamp self.old) self.old.sequence) out.old }
    {
        let interval = self.settings.asked.default_test;
        self.test_in(out, stamp, interval);
    }

    // Tests the ring, and starts the test timer with the interval.
    pub(crate) fn test_in(&mut self, out: &mut Outbox, stamp: u32, interval: u16)
        ensures machine { self.new ≡ with_test (Some interval) (numbered self.old) }
        ensures sends { out.new ≡ pushed_all self.old.setup (pair (test_at One stamp self.old) (test_at Two stamp self.old) self.old.sequence) out.old }
    {
        let first = self.test_at(Port::One, stamp);
        let second = self.test_at(Port::Two, stamp);
        self.send(out, first, second);
        self.test_timer = Some(interval);
    }

    // Tells of a topology change that comes in so many intervals.
    pub(crate) fn tell(&mut self, out: &mut Outbox, times: u16)
        requires { times ≤ 10 }
        ensures machine { self.new ≡ numbered self.old }
        ensures sends { out.new ≡ pushed_all self.old.setup (pair (change_in times self.old) (change_in times self.old) self.old.sequence) out.old }
    {
        let interval = times * self.settings.asked.topology;
        let message = Message::TopologyChange { interval };
        self.send(out, message, message);
    }

    // Announces a topology change, and starts the topology timer.
    pub(crate) fn announce(&mut self, out: &mut Outbox)
        ensures machine { self.new ≡ with_topology (Some self.old.setup.topology) (numbered self.old) }
        ensures sends { out.new ≡ pushed_all self.old.setup (pair (change_in self.old.setup.topology_count self.old) (change_in self.old.setup.topology_count self.old) self.old.sequence) out.old }
    {
        let times = self.settings.asked.topology_count;
        self.tell(out, times);
        self.topology_timer = Some(self.settings.asked.topology);
    }
}
