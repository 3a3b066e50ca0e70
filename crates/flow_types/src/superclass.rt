//! Superclasses.

ghost use Rattle.std.specs.Prelude.{◌≡◌, length};
ghost use Rattle.flow_types.specs.Tree.{superclass, superclasses, is_below, first_common, IsTree};
ghost use Rattle.flow_types.specs.TypeRank.{depth};

use program_image::Image;

/// The superclass of a class; `None` for Object, and past the classes.
#[tactic(auto, using(crate::proofs::Supers::there, crate::proofs::Supers::past))]
pub fn parent(image: &Image, class: u32) -> Option<u32>
    ensures { result ≡ superclass (superclasses image.now) class }
{
    if class < image.classes() {
        image.class(class).super_class
    } else {
        None
    }
}

/// Whether `high` is `low` or one of its superclasses.
pub fn is_sub(image: &Image, low: u32, high: u32) -> bool
    ensures { result ≡ is_below (superclasses image.now) low high }
{
    let mut at = low;
    for _ in 0..image.classes() {
        if at == high {
            return true;
        }
        match parent(image, at) {
            Some(up) => at = up,
            None => return false,
        }
    }
    false
}

/// How many superclasses a class has.
fn depth(image: &Image, class: u32) -> u32
    ensures { result ≡ depth (superclasses image.now) class }
{
    let mut at = class;
    for i in 0..image.classes() {
        match parent(image, at) {
            Some(up) => at = up,
            None => return i,
        }
    }
    image.classes()
}

/// The first superclass of `a` that is one of `b`. It climbs from the deeper of the two, so it
/// takes as many steps as they are deep.
pub(crate) fn common(image: &Image, a: u32, b: u32) -> u32
    requires tree { IsTree (superclasses image.now) }
    ensures { result ≡ first_common (length (superclasses image.now)) (superclasses image.now) a b }
{
    let (mut low, mut other) = (a, b);
    let (mut low_depth, mut other_depth) = (depth(image, a), depth(image, b));
    while low != other {
        if other_depth <= low_depth {
            let Some(up) = parent(image, low) else {
                return 0;
            };
            low = up;
            low_depth -= 1;
        } else {
            let Some(up) = parent(image, other) else {
                return 0;
            };
            other = up;
            other_depth -= 1;
        }
    }
    low
}
