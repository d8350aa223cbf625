// What is wrong with a line that is no command.
use thiserror::Error;

#[derive(Clone, Copy, Debug, Error)]
pub enum BadLine {
    #[error("no such command")]
    NoSuchCommand,
    #[error("wrong number of words")]
    WordCount,
    #[error("no such kind of switch")]
    NoSuchSwitch,
    #[error("not a number")]
    NotANumber,
    #[error("a port is 1 or 2")]
    NoSuchPort,
    #[error("not hexadecimal octets")]
    NotOctets,
    #[error("no node yet")]
    NoNode,
}
