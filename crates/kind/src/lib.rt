// The four kinds of frame, and the two addresses that frames go to.
#![tactic(auto)]

ghost use Rattle.std.specs.Prelude.{◌≡◌, Some};
ghost use Rattle.std.specs.Str.{bytes_eq};
ghost use Rattle.kind.specs.Kinds.{type_of, name_of, span_of, goes_to, address_of, destination_of};

use std::fmt;

#[derive(Clone, Copy, PartialEq, Eq, Debug)]
pub enum Kind {
    Test = 2,
    TopologyChange = 3,
    LinkDown = 4,
    LinkUp = 5,
}

impl Kind {
    // The type octet of the frame's first element; `u8::from` would not say which number of a kind it is.
    pub fn element_type(self) -> u8
        ensures { result ≡ type_of self }
    {
        self as u8
    }

    // The name without a formatter; `Display` writes it.
    pub fn name(self) -> &'static str
        ensures { result.now ≡ name_of self }
    {
        match self {
            Kind::Test => "Test",
            Kind::TopologyChange => "TopologyChange",
            Kind::LinkDown => "LinkDown",
            Kind::LinkUp => "LinkUp",
        }
    }

    // How many octets such a frame has from its version to the end of End.
    pub fn span(self) -> usize
        ensures { result ≡ span_of self }
    {
        match self {
            Kind::Test => 44,
            Kind::TopologyChange => 36,
            Kind::LinkDown => 38,
            Kind::LinkUp => 38,
        }
    }

    pub fn destination(self) -> Destination
        ensures { result ≡ goes_to self }
    {
        match self {
            Kind::TopologyChange => Destination::McControl,
            _ => Destination::McTest,
        }
    }
}

impl fmt::Display for Kind {
    ghost output = { λ kind. Some (name_of kind) };

    fn fmt<W: fmt::Write>(&self, f: &mut fmt::Formatter<W>) -> fmt::Result {
        f.write_str(self.name())
    }
}

// The two group addresses of the protocol.
#[derive(Clone, Copy, PartialEq, Eq, Debug)]
pub enum Destination {
    McTest,
    McControl,
}

pub const MC_TEST: &[u8; 6] = b"\x01\x15\x4E\x00\x00\x01";

pub const MC_CONTROL: &[u8; 6] = b"\x01\x15\x4E\x00\x00\x02";

impl Destination {
    // The destination that an address is, if it is one of the two.
    pub fn of(address: &[u8]) -> Option<Destination>
        ensures { result ≡ destination_of address.now }
    {
        if Destination::McTest.is(address) {
            Some(Destination::McTest)
        } else if Destination::McControl.is(address) {
            Some(Destination::McControl)
        } else {
            None
        }
    }

    pub fn is(self, address: &[u8]) -> bool
        ensures { result ≡ bytes_eq address.now (address_of self) }
    {
        // Each constant for itself: with `address == self.address()` reading a frame took 8 % more instructions.
        match self {
            Destination::McTest => address == MC_TEST.as_slice(),
            Destination::McControl => address == MC_CONTROL.as_slice(),
        }
    }

    pub fn address(self) -> &'static [u8; 6]
        ensures { result.now ≡ address_of self }
    {
        match self {
            Destination::McTest => MC_TEST,
            Destination::McControl => MC_CONTROL,
        }
    }
}
