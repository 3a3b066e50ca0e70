//! Indices that must name an item of a kind.

ghost use Rattle.std.specs.Prelude.{◌≡◌, ◌<◌, length, IfSome};
ghost use Rattle.constant_pool.specs.Links.{is_linked, bad_link};

use crate::lookup::{is_class_at, is_text_at};
use crate::texts::Texts;
use jvm_base::PoolItem;

fn is_linked(texts: &Texts, item: &PoolItem) -> bool
    ensures { result ≡ is_linked texts.now item.now }
{
    let pool = texts.items();
    match item {
        PoolItem::Class(name) => texts.is_class_text(*name),
        PoolItem::Text(text) => is_text_at(pool, *text),
        PoolItem::Field { class, pair } => is_class_at(pool, *class) && texts.is_field_pair(*pair),
        PoolItem::Method { class, pair } | PoolItem::InterfaceMethod { class, pair } => {
            is_class_at(pool, *class) && texts.is_method_pair(*pair)
        }
        PoolItem::NameAndKind { name, desc } => is_text_at(pool, *name) && is_text_at(pool, *desc),
        _ => true,
    }
}

/// The lowest index of an item that isn't linked (JVMS2 4.4).
pub fn bad_link(texts: &Texts) -> Option<usize>
    ensures within { IfSome result (λ i. i < length texts.now) }
    ensures value { result ≡ bad_link texts.now }
{
    texts
        .items()
        .iter()
        .position(|item| !is_linked(texts, item))
}
