// The two ring ports of a switch, and the states that a port can have.
ghost use Rattle.std.specs.Prelude.{◌≡◌, Some};
ghost use Rattle.switch.specs.Ports.{other, port_text, state_text};

use std::fmt;

#[derive(Clone, Copy, PartialEq, Eq, Debug)]
pub enum Port {
    One = 1,
    Two = 2,
}

#[derive(Clone, Copy, PartialEq, Eq, Debug)]
pub enum PortState {
    Disabled = 0,
    Blocked = 1,
    Forwarding = 2,
}

impl Port {
    pub fn other(self) -> Port
        ensures { result ≡ other self }
    {
        match self {
            Port::One => Port::Two,
            Port::Two => Port::One,
        }
    }
}

impl fmt::Display for Port {
    ghost output = { λ port. Some (port_text port) };

    fn fmt<W: fmt::Write>(&self, f: &mut fmt::Formatter<W>) -> fmt::Result {
        f.write_str(match self {
            Port::One => "1",
            Port::Two => "2",
        })
    }
}

impl fmt::Display for PortState {
    ghost output = { λ state. Some (state_text state) };

    fn fmt<W: fmt::Write>(&self, f: &mut fmt::Formatter<W>) -> fmt::Result {
        f.write_str(match self {
            PortState::Disabled => "DISABLED",
            PortState::Blocked => "BLOCKED",
            PortState::Forwarding => "FORWARDING",
        })
    }
}
