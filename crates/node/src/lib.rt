// A node of a ring, client or manager, apart from its switch.
#![tactic(auto)]

ghost use Rattle.std.specs.Prelude.{◌≡◌};
ghost use Rattle.outbox.specs.Rows.{quiet};
ghost use Rattle.node.specs.Nodes.{setup_of, started, acts, fires, passed_by, timer_in};
ghost use Rattle.node.specs.Owed.{runs_out};

use client::Client;
use event::Timer;
use machine::{Machine, Step};
use manager::Manager;
use settings::Settings;
use switch::{Port, Switch};

#[derive(Clone, Copy, PartialEq, Eq, Debug)]
pub enum Role {
    Client,
    Manager,
}

#[derive(Clone, Copy)]
pub enum Node {
    Client(Client),
    Manager(Manager),
}

impl Node {
    // Starts: both ports blocked, nothing known, no timer runs.
    pub fn start<S: Switch>(role: Role, settings: Settings, switch: &mut S) -> Node
        ensures node { result ≡ started role settings }
        ensures switch { S.Switch.meaning switch.new ≡ quiet (S.Switch.meaning switch.old) }
    {
        match role {
            Role::Client => Node::Client(Client::start(settings, switch)),
            Role::Manager => Node::Manager(Manager::start(settings, switch)),
        }
    }
}

// A match in each call: nodes are copied, so that a node is an enum of its two kinds.
impl Machine for Node {
    ghost setup = { setup_of };

    ghost timers = { timer_in };

    ghost acts = { acts };

    ghost fired = { fires };

    ghost passed = { passed_by };

    ghost runs_out = { runs_out };

    fn timer(&self, timer: Timer) -> Option<u16> {
        match self {
            Node::Client(client) => client.timer(timer),
            Node::Manager(manager) => manager.timer(timer),
        }
    }

    fn passes(&self, port: Port, octets: &[u8]) -> Option<Port> {
        match self {
            Node::Client(client) => client.passes(port, octets),
            Node::Manager(manager) => manager.passes(port, octets),
        }
    }

    fn turns<S: Switch>(&mut self, step: &mut Step<S>, port: Port, up: bool) {
        match self {
            Node::Client(client) => client.turns(step, port, up),
            Node::Manager(manager) => manager.turns(step, port, up),
        }
    }

    fn hears<S: Switch>(&mut self, step: &mut Step<S>, port: Port, octets: &[u8]) {
        match self {
            Node::Client(client) => client.hears(step, port, octets),
            Node::Manager(manager) => manager.hears(step, port, octets),
        }
    }

    fn fires<S: Switch>(&mut self, step: &mut Step<S>, timer: Timer) {
        match self {
            Node::Client(client) => client.fires(step, timer),
            Node::Manager(manager) => manager.fires(step, timer),
        }
    }
}
