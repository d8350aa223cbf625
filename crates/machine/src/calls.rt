// What a node is told, written once for every kind of node.
ghost use Rattle.std.specs.Prelude.{◌≡◌, ℕ, Option, List};
ghost use Rattle.switch.specs.declared.port.Port.{Port};
ghost use Rattle.settings.specs.Setups.{Setup};
ghost use Rattle.event.specs.declared.Timer.{Timer};
ghost use Rattle.event.specs.Events.{Event, timer_of, run_out, turns as turned, hears as heard, expires as expired};
ghost use Rattle.outbox.specs.Boxes.{emptied};
ghost use Rattle.outbox.specs.Rows.{Row, Acted, begun};
ghost use Rattle.machine.specs.Steps.{Acts, ActsAtRunOut};

use crate::step::Step;
use event::Timer;
use outbox::Outbox;
use refusal::Refusal;
use switch::{Port, Switch};

pub trait Machine {
    ghost setup: { Self → Setup };

    // The interval that each timer was started with, where it runs.
    ghost timers: { Self → Timer → Option ℕ };

    // The row of an event, under a time stamp.
    ghost acts: { ℕ → Event → Row Self → Row Self };

    // The row of a timer that runs out.
    ghost fired: { ℕ → Timer → Row Self → Row Self };

    // The port that a frame is passed on by.
    ghost passed: { Port → List ℕ → Self → Option Port };

    // The interval that a timer was started with, where it runs.
    fn timer(&self, timer: Timer) -> Option<u16>
        ensures { result ≡ timers self.now timer };

    // The port that a frame is passed on by.
    fn passes(&self, port: Port, octets: &[u8]) -> Option<Port>
        ensures { result ≡ passed port octets.now self.now };

    // The three below are the rows alone: they leave the places that are taken, and `fires` takes its timer for running.
    fn turns<S: Switch>(&mut self, step: &mut Step<S>, port: Port, up: bool)
        ensures { Acts setup S.Switch.meaning (acts step.old.stamp (turned port up)) self.old self.new step.old step.new };

    fn hears<S: Switch>(&mut self, step: &mut Step<S>, port: Port, octets: &[u8])
        ensures { Acts setup S.Switch.meaning (acts step.old.stamp (heard port octets.now)) self.old self.new step.old step.new };

    fn fires<S: Switch>(&mut self, step: &mut Step<S>, timer: Timer)
        ensures { Acts setup S.Switch.meaning (fired step.old.stamp timer) self.old self.new step.old step.new };

    // This and the two calls below stand here for every kind of node. One may give a call anew, under the same clauses.
    // The link at a port goes up or down.
    fn link<S: Switch>(
        &mut self,
        switch: &mut S,
        stamp: u32,
        port: Port,
        up: bool,
        out: &mut Outbox,
    )
        ensures { Acted (acts stamp (turned port up)) (setup self.old) self.old self.new (S.Switch.meaning switch.old) (S.Switch.meaning switch.new) (emptied out.old) out.new }
    {
        out.empty();
        self.turns(&mut Step { switch, stamp, out }, port, up);
    }

    // A frame comes by a port; answers the port that it is passed on by.
    fn frame<S: Switch>(
        &mut self,
        switch: &mut S,
        stamp: u32,
        port: Port,
        octets: &[u8],
        out: &mut Outbox,
    ) -> Option<Port>
        ensures passes { result ≡ passed port octets.now self.old }
        ensures acted { Acted (acts stamp (heard port octets.now)) (setup self.old) self.old self.new (S.Switch.meaning switch.old) (S.Switch.meaning switch.new) (emptied out.old) out.new }
    {
        out.empty();
        let onward = self.passes(port, octets);
        self.hears(&mut Step { switch, stamp, out }, port, octets);
        onward
    }

    // The timer of a number runs out.
    fn expire<S: Switch>(
        &mut self,
        switch: &mut S,
        stamp: u32,
        number: u8,
        out: &mut Outbox,
    ) -> Result<(), Refusal>
        ensures answer { result ≡ run_out (timers self.old) (timer_of number) }
        ensures acted { Acted (acts stamp (expired number)) (setup self.old) self.old self.new (S.Switch.meaning switch.old) (S.Switch.meaning switch.new) (begun (run_out (timers self.old) (timer_of number)) out.old) out.new }
    {
        let timer = Timer::try_from(number)?;
        let Some(_) = self.timer(timer) else {
            return Err(Refusal::TimerNotRunning);
        };
        out.empty();
        self.fires(&mut Step { switch, stamp, out }, timer);
        Ok(())
    }

    // A run-out that is refused does nothing; else the row of its timer acts.
    ghost runs_out: { (stamp n : ℕ) (r : Row Self) → ActsAtRunOut (fired stamp) (timers r.machine) (timer_of n) r (acts stamp (expired n) r) };
}
