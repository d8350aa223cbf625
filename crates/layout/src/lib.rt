// What a frame is, octet by octet: the definitions stand in specs/, and the worked cases are proved here.
#![tactic(auto)]

ghost use Rattle.std.specs.Prelude.{◌≡◌};
ghost use Rattle.layout.specs.Worked.{change, WorkedCases};

// The frame of the worked cases: node 0 of a ring announces a topology change in 30 ms.
#[tactic(auto, unfolding(crate::specs::Elements::element_at, crate::specs::Elements::stands))]
pub fn worked_frame() -> [u8; 50]
    ensures octets { result ≡ change 2 0 }
    ensures cases { WorkedCases }
{
    *b"\x01\x15\x4E\x00\x00\x02\x02\x00\x00\x00\x00\x00\x88\xE3\x00\x01\
       \x03\x0A\x80\x00\x02\x00\x00\x00\x00\x00\x00\x1E\
       \x01\x12\x00\x00\xFF\xFF\xFF\xFF\xFF\xFF\xFF\xFF\xFF\xFF\xFF\xFF\xFF\xFF\xFF\xFF\
       \x00\x00"
}
