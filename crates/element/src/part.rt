// Parts of a frame with their place.

// Some octets of a frame, and the place of the first of them.
#[derive(Clone, Copy)]
pub struct Part<'a> {
    pub at: usize,
    pub octets: &'a [u8],
}
