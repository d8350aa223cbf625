// The four kinds of switch that a node can be played on.
use crate::bad_line::BadLine;
use crate::command::Told;
use crate::player::{Answer, Player, Seen};
use chip::PlainChip;
use node::Role;
use outbox::Outbox;
use settings::Settings;
use switch::Switch;
use table::TableSwitch;
use turned::Turned;

// The kind by its word, before there is a player of it.
#[derive(Clone, Copy)]
pub enum SwitchKind {
    Table,
    Chip,
    TurnedTable,
    TurnedChip,
}

// A node on a switch of one of the kinds: an enum, since no function here hands out a `dyn` value.
#[derive(Drop)]
pub enum AnyPlayer {
    Table(Player<TableSwitch>),
    Chip(Player<PlainChip>),
    TurnedTable(Player<Turned<TableSwitch>>),
    TurnedChip(Player<Turned<PlainChip>>),
}

impl TryFrom<&[u8]> for SwitchKind {
    type Error = BadLine;

    fn try_from(word: &[u8]) -> Result<SwitchKind, BadLine> {
        match word {
            b"table" => Ok(SwitchKind::Table),
            b"chip" => Ok(SwitchKind::Chip),
            b"turned-table" => Ok(SwitchKind::TurnedTable),
            b"turned-chip" => Ok(SwitchKind::TurnedChip),
            _ => Err(BadLine::NoSuchSwitch),
        }
    }
}

impl AnyPlayer {
    pub fn new(kind: SwitchKind, role: Role, settings: Settings) -> AnyPlayer {
        match kind {
            SwitchKind::Table => AnyPlayer::Table(Player::new(role, settings)),
            SwitchKind::Chip => AnyPlayer::Chip(Player::new(role, settings)),
            SwitchKind::TurnedTable => AnyPlayer::TurnedTable(Player::new(role, settings)),
            SwitchKind::TurnedChip => AnyPlayer::TurnedChip(Player::new(role, settings)),
        }
    }

    pub fn tell(&mut self, told: &Told, out: &mut Outbox) -> Answer {
        match self {
            AnyPlayer::Table(player) => player.tell(told, out),
            AnyPlayer::Chip(player) => player.tell(told, out),
            AnyPlayer::TurnedTable(player) => player.tell(told, out),
            AnyPlayer::TurnedChip(player) => player.tell(told, out),
        }
    }

    pub fn seen(&self) -> Seen {
        match self {
            AnyPlayer::Table(player) => player.seen(),
            AnyPlayer::Chip(player) => player.seen(),
            AnyPlayer::TurnedTable(player) => player.seen(),
            AnyPlayer::TurnedChip(player) => player.seen(),
        }
    }
}
