// What a store keeps: its number, its links, its places in their lists, and a frame for each place.
use crate::chains::Chains;
use crate::frame::Frame;
use std::marker::Model;

pub mod calls;

#[derive(Drop)]
pub struct Store {
    number: u32,
    links: usize,
    chains: Chains,
    frames: [Frame; 128],
}

impl Model for Store {
    ghost use Rattle.store.specs.Model.{Model, model_code};

    ghost Value = { Model };

    ghost coded = { model_code };

    ghost use Rattle.store.specs.Stores.{model, Whole};

    ghost view = { model };

    ghost invariant = { Whole };
}
