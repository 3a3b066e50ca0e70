//! Whether one class is a subclass of another.

ghost use Rattle.std.specs.Prelude.{◌≡◌, ◌<◌, length};
ghost use Rattle.program_image.specs.Subclass.{is_sub_of};
ghost use Rattle.program_image.specs.Built.Ancestry.{IsAncestry};

use crate::ancestry::{Ancestry, part};
use crate::info::ClassInfo;
use hierarchy::is_among;

/// Whether the class `low` is `high` or lies below it. An array's row has few parts, so the loop is
/// short.
pub(crate) fn is_below(classes: &[ClassInfo], ancestry: &Ancestry, low: u32, high: u32) -> bool
    requires ancestry { IsAncestry classes.now ancestry.now }
    requires low_in { low < length classes.now }
    ensures { result ≡ is_sub_of classes.now low high }
{
    if is_among(ancestry.above.as_slice()[low as usize].as_slice(), high) {
        return true;
    }
    if let Some(q) = part(classes, high) {
        for p in ancestry.parts.as_slice()[low as usize].as_slice() {
            if is_below(classes, ancestry, *p, q) {
                return true;
            }
        }
    }
    false
}
