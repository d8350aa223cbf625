// Counts of a dump: accepted frames, refused frames by number, lines that are no octets.
ghost use Rattle.std.specs.Prelude.{◌≡◌, replicate};
ghost use Rattle.refusal.specs.Refusals.{number_of};
ghost use Rattle.dump.specs.Counts.{more, more_at};

use refusal::Refusal;

#[derive(Clone, Copy, Default)]
pub struct Tally {
    pub accepted: u64,
    // At each place the frames that were refused by that number: they are printed in the order of the numbers.
    pub refused: [u64; 26],
    pub not_octets: u64,
}

// A clause for each count, of those that stay too: plainer to read than one of a whole tally.
impl Tally {
    pub fn new() -> Tally
        ensures accepted { result.accepted ≡ 0 }
        ensures refused { result.refused ≡ replicate 26 0 }
        ensures not_octets { result.not_octets ≡ 0 }
    {
        Tally::default()
    }

    pub fn accept(&mut self)
        ensures accepted { self.new.accepted ≡ more self.old.accepted }
        ensures refused { self.new.refused ≡ self.old.refused }
        ensures not_octets { self.new.not_octets ≡ self.old.not_octets }
    {
        self.accepted = self.accepted.saturating_add(1);
    }

    pub fn refuse(&mut self, refusal: Refusal)
        ensures accepted { self.new.accepted ≡ self.old.accepted }
        ensures refused { self.new.refused ≡ more_at self.old.refused (number_of refusal) }
        ensures not_octets { self.new.not_octets ≡ self.old.not_octets }
    {
        let number = refusal.number() as usize;
        self.refused[number] = self.refused[number].saturating_add(1);
    }

    pub fn skip(&mut self)
        ensures accepted { self.new.accepted ≡ self.old.accepted }
        ensures refused { self.new.refused ≡ self.old.refused }
        ensures not_octets { self.new.not_octets ≡ more self.old.not_octets }
    {
        self.not_octets = self.not_octets.saturating_add(1);
    }
}
