// The manager's rows, by what happens.
ghost use Rattle.std.specs.Prelude.{nat_lt};
ghost use Rattle.switch.specs.Ports.{same_port};
ghost use Rattle.machine.specs.Steps.{Acts};
ghost use Rattle.manager.specs.Rows.{up, down, test_out, home, told, topology_out, setup_of};

use crate::state::{Manager, State};
use machine::Step;
use switch::{Port, PortState, Switch};

impl Manager {
    // A port comes up.
    pub(crate) fn up<S: Switch>(&mut self, step: &mut Step<S>, port: Port)
        ensures { Acts setup_of S.Switch.meaning (up step.old.stamp self.old.state (same_port port self.old.primary) port) self.old self.new step.old step.new }
    {
        match self.state {
            // M1
            State::AcStat1 => {
                self.primary = port;
                step.switch.set_port(port, PortState::Forwarding);
                self.state = State::PrmUp;
                self.test(step.out, step.stamp);
            }
            // M3
            State::PrmUp => {
                if port != self.primary {
                    self.misses = 0;
                    self.state = State::ChkRc;
                    self.test(step.out, step.stamp);
                }
            }
            State::ChkRc | State::ChkRo => {}
        }
    }

    // A port goes down.
    pub(crate) fn down<S: Switch>(&mut self, step: &mut Step<S>, port: Port)
        ensures { Acts setup_of S.Switch.meaning (down step.old.stamp self.old.state (same_port port self.old.primary)) self.old self.new step.old step.new }
    {
        let is_primary = port == self.primary;
        match self.state {
            State::AcStat1 => {}
            // M2
            State::PrmUp => {
                if is_primary {
                    step.switch.set_port(self.primary, PortState::Blocked);
                    self.test_timer = None;
                    self.pending = false;
                    self.state = State::AcStat1;
                }
            }
            State::ChkRc | State::ChkRo => {
                if is_primary {
                    // M5
                    self.primary = self.primary.other();
                    step.switch
                        .set_port(self.primary.other(), PortState::Blocked);
                    step.switch.set_port(self.primary, PortState::Forwarding);
                    self.state = State::PrmUp;
                    self.announce(step.out);
                    self.test(step.out, step.stamp);
                } else {
                    // M4
                    step.switch
                        .set_port(self.primary.other(), PortState::Blocked);
                    self.state = State::PrmUp;
                }
            }
        }
    }

    // The test timer has run out, and is stopped.
    pub(crate) fn test_out<S: Switch>(&mut self, step: &mut Step<S>)
        ensures { Acts setup_of S.Switch.meaning (test_out step.old.stamp self.old.state) self.old self.new step.old step.new }
    {
        match self.state {
            State::AcStat1 => {}
            // M6
            State::PrmUp | State::ChkRo => self.test(step.out, step.stamp),
            // M7
            State::ChkRc => {
                if self.misses < self.settings.asked.test_count - 1 {
                    self.misses += 1;
                    self.test(step.out, step.stamp);
                } else {
                    step.switch
                        .set_port(self.primary.other(), PortState::Forwarding);
                    self.state = State::ChkRo;
                    self.announce(step.out);
                    self.test(step.out, step.stamp);
                    self.transitions = self.transitions.wrapping_add(1);
                }
            }
        }
    }

    // M8: an own Test comes home.
    pub(crate) fn home<S: Switch>(&mut self, step: &mut Step<S>)
        ensures { Acts setup_of S.Switch.meaning (home step.old.stamp self.old.state) self.old self.new step.old step.new }
    {
        match self.state {
            State::AcStat1 | State::PrmUp => {}
            State::ChkRc => self.misses = 0,
            State::ChkRo => {
                step.switch
                    .set_port(self.primary.other(), PortState::Blocked);
                self.misses = 0;
                self.state = State::ChkRc;
                self.announce(step.out);
                self.test(step.out, step.stamp);
                self.transitions = self.transitions.wrapping_add(1);
            }
        }
    }

    // M9: a client tells of a link. One short test is made, unless one is pending.
    pub(crate) fn told<S: Switch>(&mut self, step: &mut Step<S>)
        ensures { Acts setup_of S.Switch.meaning (told step.old.stamp self.old.state) self.old self.new step.old step.new }
    {
        match self.state {
            State::AcStat1 | State::PrmUp => {}
            State::ChkRc | State::ChkRo => {
                if !self.pending {
                    self.pending = true;
                    let soon = self.settings.asked.short_test;
                    self.test_in(step.out, step.stamp, soon);
                }
            }
        }
    }

    // M10: the topology timer has run out, and is stopped.
    pub(crate) fn topology_out<S: Switch>(&mut self, step: &mut Step<S>)
        ensures { Acts setup_of S.Switch.meaning (topology_out 0 (nat_lt 0 self.old.repeats)) self.old self.new step.old step.new }
    {
        if self.repeats > 0 {
            let times = self.repeats;
            self.tell(step.out, times);
            self.repeats -= 1;
            self.topology_timer = Some(self.settings.asked.topology);
        } else {
            self.tell(step.out, 0);
            step.switch.clear();
            self.repeats = self.settings.asked.topology_count - 1;
        }
    }
}
