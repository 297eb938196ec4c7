// The style of a part.
ghost use Rattle.std.specs.Prelude.{◌≡◌};
ghost use Rattle.text_colours.specs.Styles.{style_of};

use sym_parts::Role;

/// The end of a style: ESC [0m.
pub(crate) const PLAIN: &[u8] = b"\x1b[0m";

/// The beginning of a part's style: ESC [1m, which is bold, for the name itself, and ESC [2m, which is dim, for arguments and parameters.
/// Other roles have no style of their own, and so have no bytes here.
pub(crate) fn style_of(role: Role) -> &'static [u8]
    ensures { result.now ≡ style_of role }
{
    match role {
        Role::Base => b"\x1b[1m",
        Role::GenericArguments => b"\x1b[2m",
        Role::Parameters => b"\x1b[2m",
        _ => b"",
    }
}
