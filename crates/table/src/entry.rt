// One address of a table, and the port at which it was heard last.
use switch::{Address, Port};

#[derive(Clone, Copy)]
pub struct Entry {
    pub address: Address,
    pub port: Port,
}
