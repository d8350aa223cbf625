// What the search for clashes is told of an accepted frame.
ghost use Rattle.std.specs.Prelude.{◌≡◌};
ghost use Rattle.std.specs.Option.{option_map};
ghost use Rattle.clash.specs.Sightings.{shown};
ghost use Rattle.element.specs.Shown.{part_of};
ghost use Rattle.frame.specs.Shown.{content_sender, content_kind};
ghost use Rattle.dump.specs.Sightings.{sighting_of};

use clash::Sighting;
use frame::Received;

// The frame that stood in a line; its sender has six octets.
pub fn sighting(line: usize, frame: &Received) -> Option<Sighting>
    ensures { option_map shown result ≡ sighting_of line (part_of (content_sender frame.now.content)) (content_kind frame.now.content) frame.now.sequence }
{
    let sender = <[u8; 6]>::try_from(frame.content.sender().octets).ok()?;
    Some(Sighting {
        line,
        sender,
        kind: frame.content.kind(),
        sequence: frame.sequence,
    })
}
