// What a row acts on beside its machine: the switch, the time stamp of the event, and the places for frames.
use outbox::Outbox;

#[derive(Drop)]
pub struct Step<'a, S> {
    pub switch: &'a mut S,
    pub stamp: u32,
    pub out: &'a mut Outbox,
}
