// What happens to a node: a link turns, a frame comes, a timer runs out.
#![tactic(auto)]

ghost use Rattle.std.specs.Prelude.{◌≡◌, Some};
ghost use Rattle.event.specs.Events.{timer_of, timer_name};

use refusal::Refusal;
use std::fmt;

// The timers of a node, by their numbers.
#[derive(Clone, Copy, PartialEq, Eq, Debug)]
pub enum Timer {
    Test = 0,
    Topology = 1,
    LinkUp = 2,
    LinkDown = 3,
    Clear = 4,
}

impl TryFrom<u8> for Timer {
    type Error = Refusal;

    ghost try_from_gives = { λ n r. r ≡ timer_of n };

    fn try_from(number: u8) -> Result<Self, Refusal> {
        match number {
            0 => Ok(Timer::Test),
            1 => Ok(Timer::Topology),
            2 => Ok(Timer::LinkUp),
            3 => Ok(Timer::LinkDown),
            4 => Ok(Timer::Clear),
            _ => Err(Refusal::NoSuchTimer),
        }
    }
}

impl fmt::Display for Timer {
    ghost output = { λ x. Some (timer_name x) };

    fn fmt<W: fmt::Write>(&self, f: &mut fmt::Formatter<W>) -> fmt::Result {
        f.write_str(match self {
            Timer::Test => "test",
            Timer::Topology => "topology",
            Timer::LinkUp => "link-up",
            Timer::LinkDown => "link-down",
            Timer::Clear => "clear",
        })
    }
}
