// What a symbol's name is.
#![tactic(auto)]

ghost use Rattle.std.specs.Prelude.{◌≡◌, ◌<◌, ◌&&◌, length, nat_le};
ghost use Rattle.rust_tree.specs.Fields.{number_in, text_in};
ghost use Rattle.rust_tree.specs.Layout.{is_empty};
ghost use Rattle.rust_tree.specs.Views.{fields_at};
ghost use Rattle.rust_parts.specs.Kinds.{kind_of_letter, kind_of_symbol};
ghost use Rattle.rust_parts.specs.Roles.{whole_of};

use crate::sorts::{PathSort, path_sort, root_path};
use rust_tree::Symbol;
use sym_parts::NameKind;

/// What a name is by the letter of its namespace.
fn kind_of_letter(letter: u64) -> NameKind
    ensures { result ≡ kind_of_letter letter }
{
    match letter {
        67 => NameKind::Closure,
        83 => NameKind::Shim,
        118 => NameKind::Value,
        116 => NameKind::Type,
        _ => NameKind::Item,
    }
}

/// Whether a name after its parent isn't shown: its namespace is a lower-case letter, and it has no bytes.
fn is_passed(y: &Symbol, node: u32) -> bool
    requires { node < length y.now.table.nodes }
    ensures { result ≡ (nat_le 97 (number_in (fields_at y.now node) 0) && is_empty (text_in (fields_at y.now node))) }
{
    let found = y.node(node);
    let text = y.bytes_of(found.texts[0]);
    found.numbers[0] >= 97 && text.is_empty()
}

/// What a symbol's name is. This call takes no memory.
pub fn kind_of(y: &Symbol) -> NameKind
    ensures { result ≡ kind_of_symbol (whole_of y.now) }
{
    let mut node = root_path(y);
    'paths: loop {
        match path_sort(y, node) {
            PathSort::Crate => return NameKind::Crate,
            PathSort::Implementation => return NameKind::Impl,
            PathSort::Generic(parent) => node = parent,
            PathSort::Nested(parent) => {
                if !is_passed(y, node) {
                    return kind_of_letter(y.node(node).numbers[0]);
                }
                node = parent;
            }
        }
    }
}
