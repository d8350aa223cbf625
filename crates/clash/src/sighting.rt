// An accepted frame, as the search for clashes sees it.
use kind::Kind;

#[derive(Clone, Copy)]
pub struct Sighting {
    pub line: usize,
    pub sender: [u8; 6],
    pub kind: Kind,
    pub sequence: u16,
}
