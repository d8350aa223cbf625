// What a client is told and asked.
ghost use Rattle.std.specs.Prelude.{◌≡◌, refl};
ghost use Rattle.switch.specs.declared.port.Port.{Port};
ghost use Rattle.event.specs.declared.Timer.{Timer};
ghost use Rattle.outbox.specs.Boxes.{emptied};
ghost use Rattle.outbox.specs.Rows.{Acted, quiet};
ghost use Rattle.client.specs.Machines.{started, timer_in, Bounded};
ghost use Rattle.client.specs.Rows.{acts, fires, changes, passed_by, setup_of};

use crate::state::{Client, State};
use event::Timer;
use hearing::{Heard, hear, is_mrp};
use machine::{Machine, Step, quiet};
use outbox::Outbox;
use settings::Settings;
use switch::{Port, Switch};

impl Client {
    // C1: both ports blocked, nothing known, no timer runs.
    pub fn start<S: Switch>(settings: Settings, switch: &mut S) -> Self
        ensures machine { result ≡ started settings }
        ensures switch { S.Switch.meaning switch.new ≡ quiet (S.Switch.meaning switch.old) }
    {
        quiet(switch);
        let left = settings.asked.link_count;
        Client {
            settings,
            state: State::AcStat1,
            primary: Port::One,
            up_timer: None,
            down_timer: None,
            clear_timer: None,
            left,
            sequence: 0,
        }
    }

    // A topology change comes in `interval` milliseconds, told by whatever frame.
    pub fn change<S: Switch>(&mut self, switch: &mut S, interval: u16, out: &mut Outbox)
        ensures { Acted (changes interval self.old.state) self.old.setup self.old self.new (S.Switch.meaning switch.old) (S.Switch.meaning switch.new) (emptied out.old) out.new }
    {
        out.empty();
        // no frame of a client has a stamp
        let stamp = 0;
        self.changes(&mut Step { switch, stamp, out }, interval);
    }

    pub fn state(&self) -> State
        ensures answer { result ≡ self.now.state }
        ensures bounds { Bounded self.now }
    {
        // opened for what the second clause says of them
        let _ = &self.settings.asked;
        self.state
    }
}

// A client does without the time stamp.
impl Machine for Client {
    ghost setup = { setup_of };

    ghost timers = { timer_in };

    ghost acts = { λ stamp e. acts e };

    ghost fired = { λ stamp t. fires t };

    ghost passed = { λ p xs m. passed_by p xs };

    ghost runs_out = { λ stamp n r. refl };

    fn timer(&self, timer: Timer) -> Option<u16> {
        match timer {
            Timer::Test | Timer::Topology => None,
            Timer::LinkUp => self.up_timer,
            Timer::LinkDown => self.down_timer,
            Timer::Clear => self.clear_timer,
        }
    }

    fn passes(&self, port: Port, octets: &[u8]) -> Option<Port> {
        is_mrp(octets).then_some(port.other())
    }

    // whether the link is up is what the call takes
    fn turns<S: Switch>(&mut self, step: &mut Step<S>, port: Port, up: bool) {
        if up {
            self.up(step, port);
        } else {
            self.down(step, port);
        }
    }

    fn hears<S: Switch>(&mut self, step: &mut Step<S>, _port: Port, octets: &[u8]) {
        if let Some(Heard::TopologyChange { interval }) = hear(&self.settings, octets) {
            self.changes(step, interval);
        }
    }

    fn fires<S: Switch>(&mut self, step: &mut Step<S>, timer: Timer) {
        match timer {
            Timer::LinkUp => {
                self.up_timer = None;
                self.up_out(step);
            }
            Timer::LinkDown => {
                self.down_timer = None;
                self.down_out(step);
            }
            // C30
            Timer::Clear => {
                self.clear_timer = None;
                step.switch.clear();
            }
            Timer::Test | Timer::Topology => {}
        }
    }
}
