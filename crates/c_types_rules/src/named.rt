//! What a name stands for, as the typed tree keeps it: contracts see the meaning
//! (`meaning_of_held` of `specs/Held.antt`), and it takes less than half of the room. Proved by the
//! checker alone.
ghost use Rattle.std.specs.Prelude.{◌≡◌, IfOk};
ghost use Rattle.c_types_rules.specs.Held.{number_of_held, length_of_held, meaning_of_held};

use crate::{Function, KnownFunction, Meaning, Object};
use cpa_ints::{Boxed, IntType};
use std::alloc::{AllocError, Global};
use std::marker::Model;

/// A number. One of more than 32 bits is in a box.
#[derive(Drop)]
enum HeldNumber {
    Short(i32),
    Long(Boxed<i128>),
}

/// How many elements an array has, if it is one: a number of more than 32 bits breaks a rule.
#[derive(Drop)]
enum HeldLength {
    Scalar,
    Short(i32),
    Long(Boxed<i128>),
}

/// What a name stands for, its fields in the order that takes the least room.
#[derive(Drop)]
enum Held {
    Undeclared,
    Object {
        ty: IntType,
        is_const: bool,
        number: u32,
        place: Option<u32>,
        length: HeldLength,
    },
    Function(Function),
    Known(KnownFunction),
    Enumerator(HeldNumber),
}

/// What a name stands for, if it is declared.
#[derive(Drop)]
pub struct Named {
    held: Held,
}

impl Model for Named {
    ghost use Rattle.std.specs.Prelude.{Option};
    ghost use Rattle.std.specs.Coded.{coded_option};
    ghost use Rattle.c_types_rules.specs.declared.meaning.Meaning.{Meaning};
    ghost use Rattle.c_types_rules.specs.contracts.meaning.Meaning as m;
    ghost use Rattle.c_types_rules.specs.Held.{meaning_of_held};

    ghost Value = { Option Meaning };

    ghost coded = { coded_option m.the_row.coded };

    ghost view = { λ n. meaning_of_held n.held };
}

/// A number, held.
fn held_number(alloc: Global, number: i128) -> Result<HeldNumber, AllocError>
    ensures { IfOk result (λ held. number_of_held held ≡ number) }
{
    if i128::from(i32::MIN) <= number && number <= i128::from(i32::MAX) {
        Ok(HeldNumber::Short(number as i32))
    } else {
        Ok(HeldNumber::Long(Boxed::new(alloc, number)?))
    }
}

/// The number that is held.
fn number_held(held: &HeldNumber) -> i128
    ensures { result ≡ number_of_held held.now }
{
    match held {
        HeldNumber::Short(number) => i128::from(*number),
        HeldNumber::Long(number) => *number.get(),
    }
}

/// A length, held.
fn held_length(alloc: Global, length: Option<i128>) -> Result<HeldLength, AllocError>
    ensures { IfOk result (λ held. length_of_held held ≡ length) }
{
    match length {
        None => Ok(HeldLength::Scalar),
        Some(length) => match held_number(alloc, length)? {
            HeldNumber::Short(number) => Ok(HeldLength::Short(number)),
            HeldNumber::Long(number) => Ok(HeldLength::Long(number)),
        },
    }
}

/// The length that is held.
fn length_held(held: &HeldLength) -> Option<i128>
    ensures { result ≡ length_of_held held.now }
{
    match held {
        HeldLength::Scalar => None,
        HeldLength::Short(number) => Some(i128::from(*number)),
        HeldLength::Long(number) => Some(*number.get()),
    }
}

/// A meaning, held.
fn held_meaning(alloc: Global, meaning: Option<Meaning>) -> Result<Held, AllocError>
    ensures { IfOk result (λ held. meaning_of_held held ≡ meaning) }
{
    match meaning {
        None => Ok(Held::Undeclared),
        Some(Meaning::Object(object)) => Ok(Held::Object {
            ty: object.ty,
            is_const: object.is_const,
            number: object.number,
            place: object.place,
            length: held_length(alloc, object.length)?,
        }),
        Some(Meaning::Function(function)) => Ok(Held::Function(function)),
        Some(Meaning::Known(function)) => Ok(Held::Known(function)),
        Some(Meaning::Enumerator(value)) => Ok(Held::Enumerator(held_number(alloc, value)?)),
    }
}

/// The meaning that is held.
fn meaning_held(held: &Held) -> Option<Meaning>
    ensures { result ≡ meaning_of_held held.now }
{
    match held {
        Held::Undeclared => None,
        Held::Object {
            ty,
            is_const,
            number,
            place,
            length,
        } => Some(Meaning::Object(Object {
            number: *number,
            ty: *ty,
            length: length_held(length),
            is_const: *is_const,
            place: *place,
        })),
        Held::Function(function) => Some(Meaning::Function(*function)),
        Held::Known(function) => Some(Meaning::Known(*function)),
        Held::Enumerator(value) => Some(Meaning::Enumerator(number_held(value))),
    }
}

impl Named {
    /// This meaning, kept.
    pub fn new(alloc: Global, meaning: Option<Meaning>) -> Result<Named, AllocError>
        ensures { IfOk result (λ named. named ≡ meaning) }
    {
        Ok(Named {
            held: held_meaning(alloc, meaning)?,
        })
    }

    /// The meaning.
    pub fn get(&self) -> Option<Meaning>
        ensures { result ≡ self.now }
    {
        meaning_held(&self.held)
    }
}
