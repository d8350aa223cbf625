// The client's rows, by what happens.
ghost use Rattle.std.specs.Prelude.{nat_lt};
ghost use Rattle.switch.specs.Ports.{same_port};
ghost use Rattle.machine.specs.Steps.{Acts};
ghost use Rattle.client.specs.declared.state.State.TheVariants as state;
ghost use Rattle.client.specs.Rows.{up, down, changes, up_out, down_out, setup_of};

use crate::state::{Client, State};
use machine::Step;
use switch::{Port, PortState, Switch};

impl Client {
    // A port comes up.
    pub(crate) fn up<S: Switch>(&mut self, step: &mut Step<S>, port: Port)
        ensures { Acts setup_of S.Switch.meaning (up self.old.state (same_port port self.old.primary) port) self.old self.new step.old step.new }
    {
        let is_primary = port == self.primary;
        match self.state {
            // C2, C4
            State::AcStat1 => {
                self.primary = port;
                step.switch.set_port(port, PortState::Forwarding);
                self.state = State::DeIdle;
            }
            // C6
            State::DeIdle => {
                if !is_primary {
                    self.left = self.settings.asked.link_count;
                    self.tell_up(step.out);
                    self.state = State::Pt;
                }
            }
            // C20
            State::De => {
                if !is_primary {
                    self.left = self.settings.asked.link_count;
                    self.down_timer = None;
                    self.tell_up(step.out);
                    self.state = State::Pt;
                }
            }
            State::Pt | State::PtIdle => {}
        }
    }

    // A port goes down.
    pub(crate) fn down<S: Switch>(&mut self, step: &mut Step<S>, port: Port)
        ensures { Acts setup_of S.Switch.meaning (down self.old.state (same_port port self.old.primary)) self.old self.new step.old step.new }
    {
        let is_primary = port == self.primary;
        match self.state {
            State::AcStat1 => {}
            // C8
            State::DeIdle => {
                if is_primary {
                    step.switch.set_port(self.primary, PortState::Blocked);
                    self.state = State::AcStat1;
                }
            }
            // C22
            State::De => {
                if is_primary {
                    self.left = self.settings.asked.link_count;
                    step.switch.set_port(self.primary, PortState::Blocked);
                    self.down_timer = None;
                    self.state = State::AcStat1;
                }
            }
            State::Pt => self.pt_down(step, is_primary),
            State::PtIdle => self.pt_idle_down(step, is_primary),
        }
    }

    // C14, C15
    fn pt_down<S: Switch>(&mut self, step: &mut Step<S>, is_primary: bool)
        ensures { Acts setup_of S.Switch.meaning (down state.Pt is_primary) self.old self.new step.old step.new }
    {
        self.left = self.settings.asked.link_count;
        self.up_timer = None;
        if is_primary {
            self.primary = self.primary.other();
            step.switch.set_port(self.primary, PortState::Forwarding);
        }
        step.switch
            .set_port(self.primary.other(), PortState::Blocked);
        self.tell_down(step.out);
        self.state = State::De;
    }

    // C26, C27
    fn pt_idle_down<S: Switch>(&mut self, step: &mut Step<S>, is_primary: bool)
        ensures { Acts setup_of S.Switch.meaning (down state.PtIdle is_primary) self.old self.new step.old step.new }
    {
        self.left = self.settings.asked.link_count;
        if is_primary {
            self.primary = self.primary.other();
        }
        step.switch
            .set_port(self.primary.other(), PortState::Blocked);
        self.tell_down(step.out);
        self.state = State::De;
    }

    // A topology change comes in `interval` milliseconds.
    pub(crate) fn changes<S: Switch>(&mut self, step: &mut Step<S>, interval: u16)
        ensures { Acts setup_of S.Switch.meaning (changes interval self.old.state) self.old self.new step.old step.new }
    {
        match self.state {
            State::AcStat1 => {}
            // C10, C29
            State::DeIdle | State::PtIdle => self.clear_timer = Some(interval),
            // C17
            State::Pt => {
                self.left = self.settings.asked.link_count;
                self.up_timer = None;
                step.switch
                    .set_port(self.primary.other(), PortState::Forwarding);
                self.clear_timer = Some(interval);
                self.state = State::PtIdle;
            }
            // C24
            State::De => {
                self.left = self.settings.asked.link_count;
                self.down_timer = None;
                self.clear_timer = Some(interval);
                self.state = State::DeIdle;
            }
        }
    }

    // C11, C12: the link-up timer has run out, and is stopped.
    pub(crate) fn up_out<S: Switch>(&mut self, step: &mut Step<S>)
        ensures { Acts setup_of S.Switch.meaning (up_out (nat_lt 0 self.old.left) self.old.state) self.old self.new step.old step.new }
    {
        if self.state != State::Pt {
            return;
        }
        if self.left > 0 {
            self.left -= 1;
            self.tell_up(step.out);
        } else {
            self.left = self.settings.asked.link_count;
            step.switch
                .set_port(self.primary.other(), PortState::Forwarding);
            self.state = State::PtIdle;
        }
    }

    // C18, C19: the link-down timer has run out, and is stopped. Beside `up_out`, since each row stands as in its table.
    pub(crate) fn down_out<S: Switch>(&mut self, step: &mut Step<S>)
        ensures { Acts setup_of S.Switch.meaning (down_out (nat_lt 0 self.old.left) self.old.state) self.old self.new step.old step.new }
    {
        if self.state != State::De {
            return;
        }
        if self.left > 0 {
            self.left -= 1;
            self.tell_down(step.out);
        } else {
            self.left = self.settings.asked.link_count;
            self.state = State::DeIdle;
        }
    }
}
