// Forwards a path or a type that was read to the entry that waits for it.

ghost use Rattle.std.specs.Option.{IfSome};
ghost use Rattle.sym_core.specs.Number.{FitsSymbol};
ghost use Rattle.rust_direct.specs.declared.open.Step.TheVariants as steps;
ghost use Rattle.rust_direct.specs.WriterInvariant.{IsWriting};
ghost use Rattle.rust_direct.specs.Awaits.{Receives};

use crate::direct::Direct;
use crate::open::{Forms, Open, Step};
use crate::showing::Showing;

impl Direct {
    /// Removes the entry that waits for a path or a type that is read. If the entry waits for the
    /// parent of a name, the name is read first, and the path of both is forwarded to the next
    /// entry.
    #[inline(always)]
    fn take_waiting<S: Showing>(&mut self, s: &[u8], from: usize, forms: Forms) -> Option<Open>
        requires fits { FitsSymbol s.now }
        requires writing { IsWriting S.IS_BRIEF s.now self.old (steps.Value from forms) }
        ensures { IfSome result (λ entry. Receives S.IS_BRIEF s.now self.new entry from forms) }
    {
        'names: loop {
            let entry = self.waiting.pop()?;
            let Open::Nest { letter, place } = entry else {
                return Some(entry);
            };
            if letter < b'a' {
                return Some(entry);
            }
            self.nest_ended::<S>(s, from, forms, letter, place)?;
        }
    }

    /// Forwards a path or a type to the entry that waits for it.
    pub(crate) fn pass<S: Showing>(&mut self, s: &[u8], from: usize, forms: Forms) -> Option<Step>
        requires fits { FitsSymbol s.now }
        requires writing { IsWriting S.IS_BRIEF s.now self.old (steps.Value from forms) }
        ensures { IfSome result (IsWriting S.IS_BRIEF s.now self.new) }
    {
        match self.take_waiting::<S>(s, from, forms)? {
            Open::Symbol => self.symbol_ended::<S>(s, from, forms),
            Open::Other => self.other_ended::<S>(s, from, forms),
            Open::Nest { letter, place } => self.special_ended::<S>(s, from, forms, letter, place),
            Open::Generic { is_value, place } => self.generic_ended::<S>(
                s, from, forms, is_value, place,
            ),
            Open::Argument {
                place,
                from: begins,
                is_value,
            } => self.argument_ended::<S>(s, from, forms, place, begins, is_value),
            Open::Impl { place } => self.impl_ended::<S>(s, from, forms, place),
            Open::Wrap {
                place,
                from: begins,
                closing,
            } => self.wrap_ended::<S>(s, from, forms, place, begins, closing),
            Open::Dyn {
                place,
                from: begins,
            } => self.bound_ended::<S>(s, from, forms, place, begins),
            Open::Array {
                place,
                from: begins,
            } => self.array_ended::<S>(s, from, forms, place, begins),
            Open::TraitImpl { place } => self.trait_impl_ended::<S>(s, from, forms, place),
            Open::InnerImpl { place } => self.inner_impl_ended::<S>(s, from, forms, place),
            Open::InnerTraitImpl { place } => self.inner_trait_impl_ended::<S>(
                s, from, forms, place,
            ),
            Open::Implementing {
                place,
                from: begins,
            } => self.implementing_ended::<S>(s, from, forms, place, begins),
            Open::Implemented {
                place,
                from: begins,
            } => self.implemented_ended::<S>(s, from, forms, place, begins),
            Open::Tuple {
                place,
                from: begins,
                is_first,
            } => self.element_ended::<S>(s, from, forms, place, begins, is_first),
        }
    }
}
