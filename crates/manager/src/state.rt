// What a manager keeps between two events.
ghost use Rattle.std.specs.Prelude.{Some};
ghost use Rattle.manager.specs.States.{state_name};

use settings::Settings;
use std::fmt;
use std::marker::Model;
use switch::Port;

mod actions;
mod calls;
mod rows;

#[derive(Clone, Copy, PartialEq, Eq, Debug)]
pub enum State {
    AcStat1,
    PrmUp,
    ChkRc,
    ChkRo,
}

#[derive(Clone, Copy)]
pub struct Manager {
    settings: Settings,
    state: State,
    primary: Port,
    misses: u16,
    pending: bool,
    test_timer: Option<u16>,
    topology_timer: Option<u16>,
    repeats: u16,
    transitions: u16,
    sequence: u16,
}

impl Model for Manager {
    ghost use Rattle.std.specs.Prelude.{◌≤◌};
    ghost use Rattle.manager.specs.Machines.{Machine};

    ghost Value = { Machine };

    ghost view = { λ m. record { setup = m.settings; state = m.state; primary = m.primary; misses = m.misses; pending = m.pending; test_timer = m.test_timer; topology_timer = m.topology_timer; repeats = m.repeats; transitions = m.transitions; sequence = m.sequence } };

    ghost invariant = { λ m. m.repeats ≤ 10 };

    ghost inverse = { λ m. record { settings = m.setup; state = m.state; primary = m.primary; misses = m.misses; pending = m.pending; test_timer = m.test_timer; topology_timer = m.topology_timer; repeats = m.repeats; transitions = m.transitions; sequence = m.sequence } };
}

impl fmt::Display for State {
    ghost output = { λ x. Some (state_name x) };

    fn fmt<W: fmt::Write>(&self, f: &mut fmt::Formatter<W>) -> fmt::Result {
        f.write_str(match self {
            State::AcStat1 => "AC_STAT1",
            State::PrmUp => "PRM_UP",
            State::ChkRc => "CHK_RC",
            State::ChkRo => "CHK_RO",
        })
    }
}
