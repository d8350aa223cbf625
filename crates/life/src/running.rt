// The three lives of a node.
ghost use Rattle.std.specs.Prelude.{◌≡◌};
ghost use Rattle.switch.specs.Meanings.{state_at};
ghost use Rattle.event.specs.Events.{turns as turned, hears as heard_at, expires as expired};
ghost use Rattle.outbox.specs.Rows.{quiet};
ghost use Rattle.node.specs.Nodes.{started, passed_by, expire_answer};
ghost use Rattle.life.specs.Steps.{Stepped, Here};

use machine::Machine;
use node::{Node, Role};
use outbox::Outbox;
use refusal::Refusal;
use settings::Settings;
use switch::{Port, PortState, Switch};

#[derive(Drop)]
pub struct Fitted<S> {
    role: Role,
    settings: Settings,
    switch: S,
}

#[derive(Drop)]
pub struct Running<S> {
    node: Node,
    switch: S,
}

#[derive(Drop)]
pub struct Stopped<S> {
    switch: S,
}

impl<S: Switch> Fitted<S> {
    pub fn fit(role: Role, settings: Settings, switch: S) -> Self
        ensures role { result.role ≡ role }
        ensures settings { result.settings ≡ settings }
        ensures switch { result.switch ≡ switch }
    {
        Fitted {
            role,
            settings,
            switch,
        }
    }

    // Both ports blocked, nothing known, no timer runs.
    #[tactic(auto, using(crate::proofs::Steps::is_here))]
    pub fn start(self) -> Running<S>
        ensures node { result.node ≡ started self.role self.settings }
        ensures switch { S.Switch.meaning result.switch ≡ quiet (S.Switch.meaning self.switch) }
        ensures fits { Here result.node (S.Switch.meaning result.switch) }
    {
        let Fitted {
            role,
            settings,
            mut switch,
        } = self;
        let node = Node::start(role, settings, &mut switch);
        Running { node, switch }
    }
}

// `Stepped` is one definition; each call gives it its own event.
impl<S: Switch> Running<S> {
    // The link at a port goes up or down.
    pub fn link(&mut self, stamp: u32, port: Port, up: bool, out: &mut Outbox)
        ensures { Stepped stamp (turned port up) self.old.node self.new.node (S.Switch.meaning self.old.switch) (S.Switch.meaning self.new.switch) out.old out.new }
    {
        self.node.link(&mut self.switch, stamp, port, up, out);
    }

    // A frame comes by a port; answers the port that it is passed on by.
    pub fn frame(&mut self, stamp: u32, port: Port, octets: &[u8], out: &mut Outbox) -> Option<Port>
        ensures passes { result ≡ passed_by port octets.now self.old.node }
        ensures stepped { Stepped stamp (heard_at port octets.now) self.old.node self.new.node (S.Switch.meaning self.old.switch) (S.Switch.meaning self.new.switch) out.old out.new }
    {
        self.node.frame(&mut self.switch, stamp, port, octets, out)
    }

    // The timer of a number runs out.
    pub fn expire(&mut self, stamp: u32, number: u8, out: &mut Outbox) -> Result<(), Refusal>
        ensures answer { result ≡ expire_answer number self.old.node }
        ensures stepped { Stepped stamp (expired number) self.old.node self.new.node (S.Switch.meaning self.old.switch) (S.Switch.meaning self.new.switch) out.old out.new }
    {
        self.node.expire(&mut self.switch, stamp, number, out)
    }

    // The node apart from its switch, to be asked.
    pub fn node(&self) -> Node
        ensures { result ≡ self.now.node }
    {
        self.node
    }

    pub fn port_state(&self, port: Port) -> PortState
        ensures { result ≡ state_at port (S.Switch.meaning self.now.switch) }
    {
        self.switch.port_state(port)
    }

    // The switch stays as it is.
    pub fn stop(self) -> Stopped<S>
        ensures { result.switch ≡ self.switch }
    {
        let Running { node: _, switch } = self;
        Stopped { switch }
    }
}

impl<S: Switch> Stopped<S> {
    pub fn switch(self) -> S
        ensures { result ≡ self.switch }
    {
        let Stopped { switch } = self;
        switch
    }
}
