// Every refusal of the product: its number and a sentence that a customer can read.
#![tactic(auto)]

ghost use Rattle.std.specs.Prelude.{◌≡◌, ◌≤◌, Some};
ghost use Rattle.refusal.specs.Refusals.{number_of, sentence_of};

use std::fmt;

#[derive(Clone, Copy, PartialEq, Eq, Debug)]
pub enum Refusal {
    FrameSize = 1,
    UnknownDestination = 2,
    EtherType = 3,
    Version = 4,
    FirstElement = 5,
    TooShort = 6,
    WrongDestination = 7,
    FieldValue = 8,
    NoCommon = 9,
    NoEnd = 10,
    Padding = 11,
    NoRoom = 12,
    Setting = 13,
    RingSize = 14,
    NoSuchLink = 15,
    NoSuchNode = 16,
    NoSuchDirection = 17,
    NoSuchTimer = 18,
    LinkAlreadySo = 19,
    NothingWaits = 20,
    TimerNotRunning = 21,
    FloodRoom = 22,
    NotInHand = 23,
    GroupAddress = 24,
    TableFull = 25,
}

impl Refusal {
    // The number by which manuals, logs and the firmware name the refusal; `u8::from` would not say which number it is.
    pub fn number(self) -> u8
        ensures value { result ≡ number_of self }
        ensures bound { result ≤ 25 }
    {
        self as u8
    }

    // What a customer reads; `Display` writes it.
    pub fn sentence(self) -> &'static str
        ensures { result.now ≡ sentence_of self }
    {
        match self {
            Refusal::FrameSize => "the frame has fewer than 50 or more than 60 octets",
            Refusal::UnknownDestination => "the destination is neither of the two MRP addresses",
            Refusal::EtherType => "the type of the frame is not 88E3",
            Refusal::Version => "the MRP version is not 1",
            Refusal::FirstElement => "the first element has no known type and length",
            Refusal::TooShort => "the frame is shorter than its first element asks for",
            Refusal::WrongDestination => "the destination is not the one for this kind of frame",
            Refusal::FieldValue => "a field is outside its values",
            Refusal::NoCommon => "the Common element is not where it belongs",
            Refusal::NoEnd => "the End element is not where it belongs",
            Refusal::Padding => "an octet after the End element is not zero",
            Refusal::NoRoom => "there are fewer octets to write into than the frame has",
            Refusal::Setting => "a setting is outside its limits or values",
            Refusal::RingSize => "a ring has at least 2 and at most 50 switches",
            Refusal::NoSuchLink => "the ring has no link of this number",
            Refusal::NoSuchNode => "the ring has no node of this number",
            Refusal::NoSuchDirection => "a direction is 0 or 1",
            Refusal::NoSuchTimer => "a timer number is 0 to 4",
            Refusal::LinkAlreadySo => "the link is already so",
            Refusal::NothingWaits => "no frame waits there",
            Refusal::TimerNotRunning => "this timer is not running there",
            Refusal::FloodRoom => "a flood needs two octets of room for each node",
            Refusal::NotInHand => "the frame in hand does not belong to this store",
            Refusal::GroupAddress => "a group address cannot be learned",
            Refusal::TableFull => "no more addresses can be learned",
        }
    }
}

impl fmt::Display for Refusal {
    ghost output = { λ x. Some (sentence_of x) };

    fn fmt<W: fmt::Write>(&self, f: &mut fmt::Formatter<W>) -> fmt::Result {
        f.write_str(self.sentence())
    }
}
