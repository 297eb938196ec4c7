// Demanglers that answer alike.

use crate::languages::{Cpp, Languages};
use crate::legacy::Legacy;
use crate::pressing::{Pressing, WidePressing};
use sym_recent::Alike;

impl<C: Cpp> Alike for Languages<C> {
    fn is_alike(&self, other: &Languages<C>) -> bool {
        self.limit == other.limit && self.detail == other.detail
    }
}

impl<C: Cpp> Alike for Legacy<C> {
    fn is_alike(&self, other: &Legacy<C>) -> bool {
        self.languages.limit == other.languages.limit
            && self.languages.detail == other.languages.detail
    }
}

impl Alike for Pressing {
    fn is_alike(&self, _other: &Pressing) -> bool {
        true
    }
}

impl Alike for WidePressing {
    fn is_alike(&self, _other: &WidePressing) -> bool {
        true
    }
}
