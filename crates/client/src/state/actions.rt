// What the rows do: link frames.
ghost use Rattle.std.specs.Prelude.{◌≡◌, Some};
ghost use Rattle.outbox.specs.Boxes.{pushed_all};
ghost use Rattle.client.specs.Machines.{numbered, with_up, with_down};
ghost use Rattle.client.specs.Rows.{single, up_in, down_in};

use crate::state::Client;
use outbox::{Message, Outbox};

impl Client {
    // One frame by the primary port.
    fn send(&mut self, out: &mut Outbox, message: Message)
        ensures machine { self.new ≡ numbered self.old }
        ensures sends { out.new ≡ pushed_all self.old.setup (single message self.old) out.old }
    {
        out.push(&self.settings, self.primary, message, self.sequence);
        self.sequence = self.sequence.wrapping_add(1);
    }

    // Starts the link-up timer, and tells how long the link still needs. Two functions, since one for up and down would take
    // the timer, the interval and the message, which is all that they say.
    pub(crate) fn tell_up(&mut self, out: &mut Outbox)
        ensures machine { self.new ≡ numbered (with_up (Some self.old.setup.link_up) self.old) }
        ensures sends { out.new ≡ pushed_all self.old.setup (single (up_in self.old) self.old) out.old }
    {
        let each = self.settings.asked.link_up;
        self.up_timer = Some(each);
        let interval = self.left * each;
        self.send(out, Message::LinkUp { interval });
    }

    // Starts the link-down timer, and tells how long the link still needs.
    pub(crate) fn tell_down(&mut self, out: &mut Outbox)
        ensures machine { self.new ≡ numbered (with_down (Some self.old.setup.link_down) self.old) }
        ensures sends { out.new ≡ pushed_all self.old.setup (single (down_in self.old) self.old) out.old }
    {
        let each = self.settings.asked.link_down;
        self.down_timer = Some(each);
        let interval = self.left * each;
        self.send(out, Message::LinkDown { interval });
    }
}
