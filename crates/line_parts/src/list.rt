// Lists of names.
ghost use Rattle.line_parts.specs.NameList.{AreListed, IsNameList};
ghost use Rattle.std.specs.Prelude.{◌↔◌, IsTrue};

use crate::{cut_at, is_same};
use span_types::is_well_named;

/// Whether a text is one or more names with a comma between each two.
fn are_names(text: &[u8]) -> bool
    ensures { IsTrue result ↔ AreListed text.now }
{
    let mut rest = text;
    while let Some((name, more)) = cut_at(rest, b',') {
        if !is_well_named(name) {
            return false;
        }
        rest = more;
    }
    is_well_named(rest)
}

/// Whether a text is a list of names: `()`, or one or more names with a comma between each two. Takes one pass and
/// allocates nothing.
pub fn is_name_list(text: &[u8]) -> bool
    ensures { IsTrue result ↔ IsNameList text.now }
{
    is_same(text, b"()") || are_names(text)
}
