// Which nodes are parts of items more than once in one form, as far as the items of a costly text were opened.
#![tactic(auto)]

use crate::layout::{Item, Part};
use std::alloc::Global;

/// What is known of a node: in which forms it was found as a part, and in which forms its own parts were looked at.
#[derive(Clone, Copy)]
struct Sight {
    /// A bit for each form in which the node was found.
    found: u32,
    /// A bit for each form in which the node's parts were looked at.
    opened: u32,
    /// Whether the node was found twice in one form. A node that comes in too many contexts isn't taken for shared.
    is_shared: bool,
    /// Whether the node comes in more contexts than are noted.
    is_crowded: bool,
}

/// The nodes that were found, each at its number.
#[derive(Drop)]
pub(crate) struct Sharing {
    sights: Vec<Sight>,
}

/// The bit of a form.
#[inline(always)]
fn bit_of(form: u32) -> u32 {
    1 << (form % 32)
}

/// Counts a node that is found as a part in this form. A node that is found once in a form comes in it as often as the item that it is a
/// part of.
fn found_again(sight: Sight, form: u32) -> Sight {
    let is_again = sight.found & bit_of(form) != 0;
    Sight {
        found: sight.found | bit_of(form),
        is_shared: (sight.is_shared || is_again) && !sight.is_crowded,
        ..sight
    }
}

impl Sharing {
    /// A list without nodes. Making it takes no memory.
    pub(crate) fn idle(alloc: Global) -> Sharing {
        Sharing {
            sights: Vec::new(alloc),
        }
    }

    /// Forgets all nodes. The memory of the list is kept.
    pub(crate) fn clear(&mut self) {
        self.sights.clear();
    }

    /// Whether a node is known to be a part more than once in one form, and not to come in too many contexts.
    #[inline(always)]
    pub(crate) fn is_shared(&self, node: u32) -> bool {
        match self.sights.get(node as usize) {
            Some(sight) => sight.is_shared,
            None => false,
        }
    }

    /// Takes a node for one that comes in too many contexts.
    pub(crate) fn give_up(&mut self, node: u32) {
        if let Some(sight) = self.sights.get_mut(node as usize) {
            sight.is_crowded = true;
            sight.is_shared = false;
        }
    }

    /// Whether the parts of a node in a form were looked at. The parts are the same nodes each time. Where they depend on a context, the
    /// node itself comes in as many contexts as they do.
    #[inline(always)]
    pub(crate) fn knows(&self, node: u32, form: u32) -> bool {
        match self.sights.get(node as usize) {
            Some(sight) => sight.opened & bit_of(form) != 0,
            None => false,
        }
    }

    /// Whether an item is neither to be noted nor to be looked at.
    #[inline(always)]
    pub(crate) fn is_plain<C: Copy>(&self, item: &Item<C>) -> bool {
        match self.sights.get(item.node as usize) {
            Some(sight) => {
                (!sight.is_shared || item.at != 0) && sight.opened & bit_of(item.form) != 0
            }
            None => false,
        }
    }

    /// Looks at the parts of an item. If two parts are one node in two forms, such as left and right of a name, each form is counted once.
    pub(crate) fn look<C: Copy>(&mut self, item: &Item<C>, parts: &[Part<C>]) {
        self.reach(item.node);
        if let Some(sight) = self.sights.get_mut(item.node as usize) {
            sight.opened |= bit_of(item.form);
        }
        for part in parts {
            if let Part::Sub(below) = part {
                self.reach(below.node);
                match self.sights.get_mut(below.node as usize) {
                    Some(sight) if below.node != item.node || below.form != item.form => {
                        *sight = found_again(*sight, below.form);
                    }
                    _ => {}
                }
            }
        }
    }

    /// Makes the list long enough for a node. Where there is no memory, nothing is known of the
    /// node.
    fn reach(&mut self, node: u32) {
        let unseen = Sight {
            found: 0,
            opened: 0,
            is_shared: false,
            is_crowded: false,
        };
        if self.sights.len() <= node as usize {
            let _ = self.sights.resize(node as usize + 1, unseen);
        }
    }
}
