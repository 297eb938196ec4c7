// The stretches of a text, as they are found from its beginning on.
#![tactic(auto)]

ghost use Rattle.std.specs.Prelude.{◌≡◌, ◌+◌, ◌<◌, ◌^◌, ◌∷◌, ◌++◌, [], OnErr, OnOk, IfErr};
ghost use Rattle.sym_core.specs.declared.refusal.Refusal.{Refusal};
ghost use Rattle.sym_parts.specs.declared.stretch.Stretch.{Stretch};

use crate::role::Role;
use crate::spelling::Ordinal;
use crate::stretch::Stretch;
use std::alloc::Global;
use std::marker::Model;
use sym_core::Refusal;
use sym_room::push_within;

/// The stretches that were found in a text, in order, and the place that was reached in it.
#[derive(Drop)]
pub struct Stretches {
    list: Vec<Stretch>,
    place: u32,
}

impl Model for Stretches {
    ghost use Rattle.sym_parts.specs.Found.{Found};

    ghost Value = { Found };

    ghost view = { λ found. record { stretches = found.list.items; place = found.place } };
}

impl Stretches {
    /// No stretches, at the beginning of a text.
    pub fn new(alloc: Global) -> Stretches
        ensures { result ≡ record { stretches = []; place = 0 } }
    {
        Stretches {
            list: Vec::new(alloc),
            place: 0,
        }
    }

    /// The place that was reached in the text.
    pub fn place(&self) -> u32
        ensures { result ≡ self.now.place }
    {
        self.place
    }

    /// The stretches.
    pub fn list(&self) -> &[Stretch]
        ensures { result.now ≡ self.now.stretches }
    {
        &self.list
    }

    /// Advances by this many bytes of the text.
    pub fn skip(&mut self, length: u32)
        requires { self.old.place + length < 2 ^ 32 }
        ensures stretches { self.new.stretches ≡ self.old.stretches }
        ensures place { self.new.place ≡ self.old.place + length }
    {
        self.place += length;
    }

    /// Adds the stretch of this length that begins at the place. The stretches within it are added next.
    ///
    /// # Errors
    ///
    /// `Memory` where the list couldn't grow; the list is unchanged then.
    pub fn begin(&mut self, role: Role, ordinal: Ordinal, length: u32) -> Result<(), Refusal>
        ensures stretches { OnOk result (self.new.stretches ≡ self.old.stretches ++ record { role = role; ordinal = ordinal; start = self.old.place; length = length } ∷ []) }
        ensures unchanged { OnErr result (self.new.stretches ≡ self.old.stretches) }
        ensures place { self.new.place ≡ self.old.place }
        ensures refusals { IfErr result (λ refusal. refusal ≡ Refusal.Memory) }
    {
        let stretch = Stretch {
            role,
            ordinal,
            start: self.place,
            length,
        };
        push_within(&mut self.list, stretch)?;
        Ok(())
    }

    /// The list of the stretches.
    pub fn into_list(self) -> Vec<Stretch>
        ensures { result.items ≡ self.stretches }
    {
        let Stretches { list, place: _ } = self;
        list
    }
}
