// What a manager is told and asked.
ghost use Rattle.std.specs.Prelude.{◌≡◌, None, refl};
ghost use Rattle.switch.specs.declared.port.Port.{Port};
ghost use Rattle.event.specs.declared.Timer.{Timer};
ghost use Rattle.outbox.specs.Rows.{quiet};
ghost use Rattle.manager.specs.Machines.{started, timer_in, Bounded};
ghost use Rattle.manager.specs.Rows.{acts, fires, setup_of};

use crate::state::{Manager, State};
use event::Timer;
use hearing::{Heard, hear};
use machine::{Machine, Step, quiet};
use settings::Settings;
use switch::{Port, Switch};

impl Manager {
    // Starts: both ports blocked, nothing known, no timer runs.
    pub fn start<S: Switch>(settings: Settings, switch: &mut S) -> Self
        ensures machine { result ≡ started settings }
        ensures switch { S.Switch.meaning switch.new ≡ quiet (S.Switch.meaning switch.old) }
    {
        quiet(switch);
        let repeats = settings.asked.topology_count - 1;
        Manager {
            settings,
            state: State::AcStat1,
            primary: Port::One,
            misses: 0,
            pending: false,
            test_timer: None,
            topology_timer: None,
            repeats,
            transitions: 0,
            sequence: 0,
        }
    }

    pub fn state(&self) -> State
        ensures answer { result ≡ self.now.state }
        ensures bounds { Bounded self.now }
    {
        // opened for what the second clause says of them
        let _ = &self.settings.asked;
        self.state
    }
}

// A manager passes nothing on.
impl Machine for Manager {
    ghost setup = { setup_of };

    ghost timers = { timer_in };

    ghost acts = { acts };

    ghost fired = { fires };

    ghost passed = { λ p xs m. None };

    ghost runs_out = { λ stamp n r. refl };

    fn timer(&self, timer: Timer) -> Option<u16> {
        match timer {
            Timer::Test => self.test_timer,
            Timer::Topology => self.topology_timer,
            Timer::LinkUp | Timer::LinkDown | Timer::Clear => None,
        }
    }

    fn passes(&self, _port: Port, _octets: &[u8]) -> Option<Port> {
        None
    }

    // whether the link is up is what the call takes
    fn turns<S: Switch>(&mut self, step: &mut Step<S>, port: Port, up: bool) {
        if up {
            self.up(step, port);
        } else {
            self.down(step, port);
        }
    }

    fn hears<S: Switch>(&mut self, step: &mut Step<S>, _port: Port, octets: &[u8]) {
        match hear(&self.settings, octets) {
            Some(Heard::OwnTest) => self.home(step),
            Some(Heard::LinkFrame) => self.told(step),
            Some(Heard::TopologyChange { .. }) | None => {}
        }
    }

    fn fires<S: Switch>(&mut self, step: &mut Step<S>, timer: Timer) {
        match timer {
            Timer::Test => {
                self.test_timer = None;
                self.pending = false;
                self.test_out(step);
            }
            Timer::Topology => {
                self.topology_timer = None;
                self.topology_out(step);
            }
            Timer::LinkUp | Timer::LinkDown | Timer::Clear => {}
        }
    }
}
