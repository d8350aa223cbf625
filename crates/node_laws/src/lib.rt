// What holds of a node after every run of events, whatever its switch.
#![tactic(auto)]

ghost use Rattle.std.specs.Prelude.{◌≡◌};
ghost use Rattle.node_laws.specs.Tables.{AlwaysFit, AlwaysOpens, AlwaysInCount, FourFrames};
ghost use Rattle.node_laws.specs.Announcements.{Countdown, WorkedAnnouncement};
ghost use Rattle.node_laws.specs.Saying.{AlwaysReadsBack};

// How many frames an event sends at most. The laws of nodes that are not about one call stand here.
pub fn most_frames() -> usize
    ensures answer { result ≡ 4 }
    ensures fits { AlwaysFit }
    ensures opens { AlwaysOpens }
    ensures counts { AlwaysInCount }
    ensures four { FourFrames }
    ensures down { Countdown }
    ensures worked { WorkedAnnouncement }
    ensures back { AlwaysReadsBack }
{
    4
}
