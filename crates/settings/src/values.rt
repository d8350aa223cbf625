// Settings within their limits: what was asked for, looked at.
ghost use Rattle.settings.specs.Setups.{Setup, Within};

use crate::draft::Draft;
use std::marker::Model;

#[derive(Clone, Copy)]
pub struct Settings {
    pub asked: Draft,
}

impl Model for Settings {
    ghost Value = { Setup };

    ghost view = { λ s. s.asked };

    ghost invariant = { λ s. Within s.asked };

    ghost inverse = { λ s. record { asked = s } };
}
