// How every node starts.
ghost use Rattle.std.specs.Prelude.{◌≡◌};
ghost use Rattle.outbox.specs.Rows.{quiet};

use switch::{Port, PortState, Switch};

// Both ports are blocked, and nothing is known.
pub fn quiet<S: Switch>(switch: &mut S)
    ensures { S.Switch.meaning switch.new ≡ quiet (S.Switch.meaning switch.old) }
{
    switch.set_port(Port::One, PortState::Blocked);
    switch.set_port(Port::Two, PortState::Blocked);
    switch.clear();
}
