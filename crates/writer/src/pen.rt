// A pen puts octets and numbers into lent octets, one after the other: straight there, since a copy at the end takes time.
ghost use Rattle.std.specs.Prelude.{◌≡◌, ◌≤◌, length};
ghost use Rattle.layout.specs.Layout.{two, four};

#[derive(Drop)]
pub(crate) struct Pen<'a> {
    pub(crate) out: &'a mut [u8],
    pub(crate) at: usize,
    ghost within: { at ≤ length out.now },
}

// Each method asks for the room of what it puts, another number each.
impl Pen<'_> {
    ghost use Rattle.writer.specs.Pens.{left, Puts};

    pub(crate) fn put(&mut self, octets: &[u8])
        requires { length octets.now ≤ length (left self.old) }
        ensures { Puts octets.now self.old self.new }
    {
        let end = self.at + octets.len();
        self.out[self.at..end].copy_from_slice(octets);
        self.at = end;
    }

    pub(crate) fn put_number(&mut self, number: u16)
        requires { 2 ≤ length (left self.old) }
        ensures { Puts (two number) self.old self.new }
    {
        self.put(&number.to_be_bytes());
    }

    // Beside `put_number`, since no trait has `to_be_bytes`, which a method for both would ask for.
    pub(crate) fn put_stamp(&mut self, stamp: u32)
        requires { 4 ≤ length (left self.old) }
        ensures { Puts (four stamp) self.old self.new }
    {
        self.put(&stamp.to_be_bytes());
    }
}
