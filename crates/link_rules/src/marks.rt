//! What was found once of each text of a file's pool, so that no instruction asks it again.

ghost use Rattle.std.specs.Prelude.{◌≡◌, Some, IfSome, slice_get};
ghost use Rattle.std.specs.Option.{option_copied};
ghost use Rattle.class_names.specs.Texts.{class_text, member_in, member_of_pair};
ghost use Rattle.link_rules.specs.Marks.{IsTold};

use jvm_base::PoolItem;

/// What is told of the text at an index.
pub(crate) fn told_text(told: &[bool], index: u16) -> Option<bool>
    ensures { result ≡ slice_get told.now index }
{
    told.get(index as usize).copied()
}

/// What is told of the text of the class item at an index.
pub fn told_class(told: &[bool], pool: &[PoolItem], index: u16) -> Option<bool>
    ensures { IfSome result (λ b. IsTold told.now pool.now (class_text pool.now index) b) }
{
    match pool.get(index as usize) {
        Some(PoolItem::Class(name)) => told.get(*name as usize).copied(),
        _ => None,
    }
}

/// What is told of the text of the class of a member of a name and descriptor.
fn told_of_pair(told: &[bool], pool: &[PoolItem], class: u16, pair: u16) -> Option<bool>
    ensures { IfSome result (λ b. IsTold told.now pool.now
        (member_of_pair pool.now class (slice_get pool.now pair)).class b) }
{
    match pool.get(pair as usize) {
        Some(PoolItem::NameAndKind { .. }) => told_class(told, pool, class),
        _ => None,
    }
}

/// What is told of the text of a member item's class.
pub fn told_owner(told: &[bool], pool: &[PoolItem], item: u16) -> Option<bool>
    ensures { IfSome result (λ b. IsTold told.now pool.now (member_in pool.now item).class b) }
{
    match pool.get(item as usize) {
        Some(
            PoolItem::Field { class, pair }
            | PoolItem::Method { class, pair }
            | PoolItem::InterfaceMethod { class, pair },
        ) => told_of_pair(told, pool, *class, *pair),
        _ => None,
    }
}

/// What is told of the text of the descriptor of a name and descriptor.
fn told_of_desc(told: &[bool], pool: &[PoolItem], class: u16, pair: u16) -> Option<bool>
    ensures { IfSome result (λ b. IsTold told.now pool.now
        (member_of_pair pool.now class (slice_get pool.now pair)).desc b) }
{
    match pool.get(pair as usize) {
        Some(PoolItem::NameAndKind { desc, .. }) => told.get(*desc as usize).copied(),
        _ => None,
    }
}

/// What is told of the text of a member item's descriptor.
pub(crate) fn told_desc(told: &[bool], pool: &[PoolItem], item: u16) -> Option<bool>
    ensures { IfSome result (λ b. IsTold told.now pool.now (member_in pool.now item).desc b) }
{
    match pool.get(item as usize) {
        Some(
            PoolItem::Field { class, pair }
            | PoolItem::Method { class, pair }
            | PoolItem::InterfaceMethod { class, pair },
        ) => told_of_desc(told, pool, *class, *pair),
        _ => None,
    }
}
