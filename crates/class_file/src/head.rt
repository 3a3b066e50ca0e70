//! What fields and methods begin with.

ghost use Rattle.std.specs.Prelude.{◌≡◌, ◌++◌, ◌∷◌, [], List, ℕ, IfOk};
ghost use Rattle.class_file.specs.Reading.Words.{Reads};
ghost use Rattle.class_format.specs.KnownTexts.{is_named};
ghost use Rattle.class_format.specs.Members.{is_without_receiver, is_desc_of, flags_clash};
ghost use Rattle.class_file.specs.Reading.Seen.{HasSeen};
ghost use Rattle.class_file.specs.Reading.Members.{head_numbers_at, head_at, new_head_at};

use crate::error::ClassErr;
use crate::reader::Reader;
use class_format::{
    MemberHead, MemberKind, flags_clash, is_desc_of, is_named, is_without_receiver,
};
use constant_pool::Texts;
use std::collections::BTreeSet;

#[tactic(auto, unfolding(crate::specs::Reading::Members::head_numbers_at))]
fn head_numbers(reader: &mut Reader) -> Result<MemberHead, ClassErr>
    ensures { Reads reader.new result (head_numbers_at reader.old) }
{
    let flags = reader.u2()?;
    let name = reader.u2()?;
    let desc = reader.u2()?;
    Ok(MemberHead { flags, name, desc })
}

#[tactic(auto, unfolding(crate::specs::Reading::Members::head_at))]
fn any_head(reader: &mut Reader, texts: &Texts, kind: MemberKind) -> Result<MemberHead, ClassErr>
    ensures { Reads reader.new result (head_at kind texts.now reader.old) }
{
    let flags_at = reader.offset();
    let name_at = reader.offset_after(2);
    let desc_at = reader.offset_after(4);
    let head = head_numbers(reader)?;
    let without_receiver = is_without_receiver(texts, head.flags, head.name);
    if !is_named(texts.items(), head.name) {
        return Err(ClassErr::ItemLink(name_at));
    }
    if !is_desc_of(texts, kind, without_receiver, head.desc) {
        return Err(ClassErr::ItemLink(desc_at));
    }
    if flags_clash(kind, without_receiver, head.flags) {
        return Err(ClassErr::Flags(flags_at));
    }
    Ok(head)
}

/// Reads what a field or method begins with (JVMS2 4.5, 4.6). `seen` has the names and descriptors
/// of the earlier ones of its kind, by the ranks of their texts.
#[tactic(auto, unfolding(crate::specs::Reading::Members::new_head_at))]
pub(crate) fn new_head(
    reader: &mut Reader,
    texts: &Texts,
    kind: MemberKind,
    seen: &mut BTreeSet<(u16, u16)>,
) -> Result<MemberHead, ClassErr>
    ensures exact { (keys : List (ℕ × ℕ)) → HasSeen texts.now seen.old keys
        → Reads reader.new result (new_head_at kind texts.now keys reader.old) }
    ensures seen { (keys : List (ℕ × ℕ)) → HasSeen texts.now seen.old keys
        → IfOk result (λ h. HasSeen texts.now seen.new (keys ++ (h.name, h.desc) ∷ [])) }
{
    let at = reader.offset();
    let head = any_head(reader, texts, kind)?;
    if !seen.insert((texts.rank(head.name), texts.rank(head.desc)))? {
        return Err(ClassErr::Twice(at));
    }
    Ok(head)
}
