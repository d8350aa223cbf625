// The address of a station or of a group of them: six octets.
ghost use Rattle.std.specs.Prelude.{◌≡◌, true};
ghost use Rattle.switch.specs.Addresses.{is_address, is_group};

#[derive(Clone, Copy, PartialEq, Eq, Debug)]
pub struct Address {
    octets: [u8; 6],
    ghost six: { is_address octets ≡ true },
}

impl From<[u8; 6]> for Address {
    ghost from_gives = { λ octets address. address.octets ≡ octets };

    fn from(octets: [u8; 6]) -> Self {
        // taken apart, so that the proof sees six octets
        let [a, b, c, d, e, f] = octets;
        Address {
            octets: [a, b, c, d, e, f],
        }
    }
}

impl Address {
    // A method, as the library's addresses have.
    pub fn octets(&self) -> [u8; 6]
        ensures { result ≡ self.now.octets }
    {
        self.octets
    }

    // Whether it stands for a group of stations, which no port can have been the place of.
    pub fn is_group(&self) -> bool
        ensures { result ≡ is_group self.now.octets }
    {
        let [first, ..] = self.octets;
        first % 2 == 1
    }
}
