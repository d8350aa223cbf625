// What a client keeps between two events.
ghost use Rattle.std.specs.Prelude.{Some};
ghost use Rattle.client.specs.States.{state_name};

use settings::Settings;
use std::fmt;
use std::marker::Model;
use switch::Port;

mod actions;
mod calls;
mod rows;

#[derive(Clone, Copy, PartialEq, Eq, Debug)]
pub enum State {
    AcStat1,
    DeIdle,
    De,
    Pt,
    PtIdle,
}

#[derive(Clone, Copy)]
pub struct Client {
    settings: Settings,
    state: State,
    primary: Port,
    up_timer: Option<u16>,
    down_timer: Option<u16>,
    clear_timer: Option<u16>,
    left: u16,
    sequence: u16,
}

impl Model for Client {
    ghost use Rattle.std.specs.Prelude.{◌≤◌};
    ghost use Rattle.client.specs.Machines.{Machine};

    ghost Value = { Machine };

    ghost view = { λ c. record { setup = c.settings; state = c.state; primary = c.primary; up_timer = c.up_timer; down_timer = c.down_timer; clear_timer = c.clear_timer; left = c.left; sequence = c.sequence } };

    ghost invariant = { λ c. c.left ≤ 10 };

    ghost inverse = { λ m. record { settings = m.setup; state = m.state; primary = m.primary; up_timer = m.up_timer; down_timer = m.down_timer; clear_timer = m.clear_timer; left = m.left; sequence = m.sequence } };
}

impl fmt::Display for State {
    ghost output = { λ x. Some (state_name x) };

    fn fmt<W: fmt::Write>(&self, f: &mut fmt::Formatter<W>) -> fmt::Result {
        f.write_str(match self {
            State::AcStat1 => "AC_STAT1",
            State::DeIdle => "DE_IDLE",
            State::De => "DE",
            State::Pt => "PT",
            State::PtIdle => "PT_IDLE",
        })
    }
}
