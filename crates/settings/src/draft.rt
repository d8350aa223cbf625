// Settings as they are asked for, not looked at yet; intervals are in milliseconds.
ghost use Rattle.std.specs.Prelude.{◌≡◌};
ghost use Rattle.settings.specs.Setups.{is_interval, is_count, in_time, in_count, within, Settled};

use crate::values::Settings;
use refusal::Refusal;

#[derive(Clone, Copy)]
pub struct Draft {
    pub short_test: u16,
    pub default_test: u16,
    pub topology: u16,
    pub link_up: u16,
    pub link_down: u16,
    pub test_count: u16,
    pub topology_count: u16,
    pub link_count: u16,
    pub priority: u16,
    pub domain: [u8; 16],
    pub address: [u8; 6],
}

fn is_interval(time: u16) -> bool
    ensures { result ≡ is_interval time }
{
    (1..=1000).contains(&time)
}

fn is_count(count: u16, least: u16) -> bool
    ensures { result ≡ is_count least count }
{
    (least..=10).contains(&count)
}

// The settings, where all of them are within their limits.
impl TryFrom<Draft> for Settings {
    type Error = Refusal;

    ghost try_from_gives = { Settled };

    fn try_from(draft: Draft) -> Result<Self, Refusal> {
        let true = draft.is_within() else {
            return Err(Refusal::Setting);
        };
        Ok(Settings { asked: draft })
    }
}

impl Draft {
    fn is_within(&self) -> bool
        ensures { result ≡ within self.now }
    {
        self.is_in_time() && self.is_in_count()
    }

    // Whether the intervals are within their limits.
    fn is_in_time(&self) -> bool
        ensures { result ≡ in_time self.now }
    {
        is_interval(self.short_test)
            && is_interval(self.default_test)
            && self.short_test <= self.default_test
            && is_interval(self.topology)
            && is_interval(self.link_up)
            && is_interval(self.link_down)
    }

    // Whether the counts and the priority are within their limits.
    fn is_in_count(&self) -> bool
        ensures { result ≡ in_count self.now }
    {
        is_count(self.test_count, 2)
            && is_count(self.topology_count, 1)
            && is_count(self.link_count, 1)
            // as in frames, of which settings know nothing
            && self.priority % 0x1000 == 0
    }
}
