//! A call in a body (`Call` of `specs/Items.antt` of `c_types_rules`): which body it stands in,
//! which it calls, and where. Proved by the checker alone.
use std::marker::Model;

/// A call in a body.
#[derive(Clone, Copy)]
pub struct Call {
    /// How many bodies stand before the one in which it stands.
    pub caller: u32,
    /// How many bodies stand before that of the called function.
    pub callee: u32,
    /// The place of the called name.
    pub place: u32,
}

impl Model for Call {
    ghost use Rattle.c_types_rules.specs.Items.{Call as CallOfText};

    ghost Value = { CallOfText };

    ghost view = { λ a. record { caller = a.caller; callee = a.callee; place = a.place } };

    ghost inverse = { λ d. record { caller = d.caller; callee = d.callee; place = d.place } };
}
