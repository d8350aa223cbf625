// The octets of one frame.
ghost use Rattle.std.specs.Prelude.{◌≡◌, ℕ, ◌≤◌, length};

pub mod fill;

// The octets of one frame, at most 60. As an `ArrayVec`, which is blanked before it is filled, it was too slow when tried: a
// round of put, take and drop took 16.5 ns and not 10.
#[derive(Clone, Copy)]
pub struct Frame {
    octets: [u8; 60],
    len: u8,
    ghost whole: { length octets ≡ 60 },
    ghost few: { len ≤ 60 },
}
