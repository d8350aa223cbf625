// What a ring is and what holds of it after every history of calls: definitions and laws.
#![tactic(auto)]

ghost use Rattle.std.specs.Prelude.{◌≡◌};
ghost use Rattle.rings.specs.Laws.{TestsAddUp, AtMost128, LoopIsOpen, OpenIsLate, LinkUpStartsNone, HomeLeavesNone, TwiceIsLoop, OnceIsClosed};
ghost use Rattle.rings.specs.Worked.{WorkedRing, WorkedFlood};

// How many nodes a ring has at most. The laws of rings stand here.
pub fn most_nodes() -> usize
    ensures answer { result ≡ 50 }
    ensures tests { TestsAddUp }
    ensures room { AtMost128 }
    ensures looped { LoopIsOpen }
    ensures late { OpenIsLate }
    ensures up { LinkUpStartsNone }
    ensures home { HomeLeavesNone }
    ensures twice { TwiceIsLoop }
    ensures once { OnceIsClosed }
    ensures worked { WorkedRing }
    ensures flooded { WorkedFlood }
{
    50
}
