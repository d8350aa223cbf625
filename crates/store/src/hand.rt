// What the calls of a store answer.
use refusal::Refusal;

// A frame in somebody's hand: neither `Drop` nor `Copy`, so that it has to be spent, and only once.
pub struct InHand {
    pub(crate) store: u32,
    pub(crate) place: usize,
}

// A frame in hand that was not spent comes back, with the reason.
pub struct HandedBack {
    pub frame: InHand,
    pub refusal: Refusal,
}

// What became of a frame that was put in: two answers without a value, and no refusal.
#[derive(Clone, Copy)]
pub enum Put {
    Waits,
    Lost,
}
