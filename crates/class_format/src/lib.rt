//! What a class file is: its parts, its bytes, and which values have a spelling.
#![tactic(auto)]

mod class;
mod flags;
mod formed;
mod formed_member;
mod formed_pool;
mod known_texts;
mod member_kind;
mod members;
mod version;

pub use class::{ClassFile, FieldItem, MethodItem};
pub use flags::{
    ABSTRACT, FINAL, INTERFACE, NATIVE, PRIVATE, PROTECTED, PUBLIC, STATIC, SUPER,
    class_flags_clash, has_flag,
};
pub use formed::well_formed;
pub use known_texts::{
    CLINIT, CODE, CONSTANT_VALUE, is_clinit, is_code, is_constant_at, is_constant_value, is_named,
};
pub use member_kind::{
    MemberHead, MemberKind, code_count, flags_clash, is_code_len, is_desc_of, is_without_receiver,
};
pub use version::{MAGIC, is_other_version};
