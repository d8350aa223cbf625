// Filling a frame, and lending its octets.
ghost use Rattle.std.specs.Prelude.{◌≡◌, ℕ, ◌≤◌, [], length};
ghost use Rattle.store.specs.Contents.{contents};

use crate::frame::Frame;

impl Frame {
    pub(crate) fn empty() -> Self
        ensures { contents result ≡ [] }
    {
        Frame {
            octets: [0; 60],
            len: 0,
        }
    }

    // The octets are copied in.
    pub(crate) fn fill(&mut self, octets: &[u8])
        requires { length octets.now ≤ 60 }
        ensures { contents self.new ≡ octets.now }
    {
        let n = octets.len();
        self.octets[0..n].copy_from_slice(octets);
        self.len = n as u8;
    }

    pub(crate) fn octets(&self) -> &[u8]
        ensures { result.now ≡ contents self.now }
    {
        &self.octets[0..self.len as usize]
    }
}
