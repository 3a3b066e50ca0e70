//! Fields, or methods, of which no two are alike.

ghost use Rattle.std.specs.Prelude.{◌≡◌, ◌↔◌, ◌<◌, ◌^◌, [], ℕ, Some, IsTrue, IsSorted, length, map, slice_get};
ghost use Rattle.std.specs.List.{IsDistinct};
ghost use Rattle.std.specs.Ordering.{eq_by_cmp};
ghost use Rattle.jvm_base.specs.declared.pool.PoolItem.TheVariants.{Gap};
ghost use Rattle.class_format.specs.Judging.Keys.{key_cmp, key_ranks};
ghost use Rattle.class_format.specs.Judging.Formed.{AreNew};
ghost use Rattle.class_format.specs.Members.{field_key, method_key};

use crate::class::{COUNT_LIMIT, FieldItem, MethodItem};
use constant_pool::Texts;

/// What fields and methods share: the pool indices of a name and a descriptor.
pub(crate) trait Named {
    ghost key: { Self → ℕ × ℕ };

    fn key(&self) -> (u16, u16)
        ensures { result ≡ key self.now };
}

impl Named for FieldItem {
    ghost key = { field_key };

    fn key(&self) -> (u16, u16) {
        (self.name, self.desc)
    }
}

impl Named for MethodItem {
    ghost key = { method_key };

    fn key(&self) -> (u16, u16) {
        (self.name, self.desc)
    }
}

/// Puts the ranks of each member's name and descriptor at its place.
fn fill_keys<T: Named>(texts: &Texts, members: &[T], keys: &mut [(u16, u16)])
    requires { length keys.old ≡ length members.now }
    ensures { keys.new ≡ map (λ member. key_ranks texts.now (T.key member)) members.now }
{
    for at in 0..members.len() {
        let (name, desc) = members[at].key();
        keys[at] = (texts.rank(name), texts.rank(desc));
    }
}

fn neighbours_differ(keys: &[(u16, u16)]) -> bool
    requires { IsSorted key_cmp keys.now }
    ensures { IsTrue result ↔ IsDistinct (eq_by_cmp key_cmp) keys.now }
{
    for later in 1..keys.len() {
        if keys[later - 1] == keys[later] {
            return false;
        }
    }
    true
}

/// Whether no two members have the same name and descriptor. It sorts their ranks, so that members
/// that share long texts take no quadratic time.
pub(crate) fn are_new<T: Named>(texts: &Texts, members: &[T]) -> bool
    requires few { length members.now < 2 ^ 16 }
    requires gap { slice_get texts.now 0 ≡ Some Gap }
    ensures { IsTrue result ↔ AreNew texts.now T.key [] members.now }
{
    let mut room = [(0, 0); COUNT_LIMIT];
    let keys = &mut room[..members.len()];
    fill_keys(texts, members, keys);
    keys.sort_unstable();
    neighbours_differ(keys)
}
