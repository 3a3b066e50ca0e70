//! What the rule on kinds asks of texts, once for each text of a file's pool.

ghost use Rattle.std.specs.Prelude.{◌≡◌, IfOk};
ghost use Rattle.class_names.specs.Texts.{class_text, member_in};
ghost use Rattle.link_rules.specs.Classes.{names_interface};
ghost use Rattle.link_rules.specs.Marks.{AreTested};
ghost use Rattle.link_uses.specs.Told.{AreTold};
ghost use Rattle.link_uses.specs.Uses.{is_wrong_new};

use class_format::{ABSTRACT, INTERFACE, has_flag};
use class_names::{class_text, is_array, member, text};
use jvm_base::{List, NoMemory, PoolItem};
use link_rules::{Program, told_class, told_owner};
use std::alloc::Global;

/// Of each text of a pool, by index, whether it names an interface, and whether `new` may not make
/// an object of what it names.
#[derive(Drop)]
pub(crate) struct Told {
    pub(crate) interfaces: List<bool>,
    pub(crate) wrong_news: List<bool>,
}

#[tactic(auto, unfolding(crate::specs::Uses::is_wrong_new))]
fn is_wrong_new(program: &Program, text: &[u16]) -> bool
    ensures { result ≡ is_wrong_new program.now text.now }
{
    let flags = program.flags_of(text);
    is_array(text) || has_flag(flags, INTERFACE) || has_flag(flags, ABSTRACT)
}

fn interfaces(alloc: Global, program: &Program, pool: &[PoolItem]) -> Result<List<bool>, NoMemory>
    ensures { IfOk result (λ told. AreTested (names_interface program.now) pool.now told) }
{
    let mut told = List::new(alloc);
    let count = pool.len().min(u16::MAX as usize) as u16;
    for index in 0..count {
        told.push(program.names_interface(text(pool, index)))?;
    }
    Ok(told)
}

fn wrong_news(alloc: Global, program: &Program, pool: &[PoolItem]) -> Result<List<bool>, NoMemory>
    ensures { IfOk result (λ told. AreTested (is_wrong_new program.now) pool.now told) }
{
    let mut told = List::new(alloc);
    let count = pool.len().min(u16::MAX as usize) as u16;
    for index in 0..count {
        told.push(is_wrong_new(program, text(pool, index)))?;
    }
    Ok(told)
}

impl Told {
    /// Nothing is told of any text.
    pub(crate) fn nothing(alloc: Global, program: &Program, pool: &[PoolItem]) -> Told
        ensures { AreTold program.now pool.now result }
    {
        let _program = program;
        let _pool = pool;
        Told {
            interfaces: List::new(alloc),
            wrong_news: List::new(alloc),
        }
    }

    /// What is told of the texts of a pool.
    pub(crate) fn new(alloc: Global, program: &Program, pool: &[PoolItem]) -> Result<Told, NoMemory>
        ensures { IfOk result (λ told. AreTold program.now pool.now told) }
    {
        Ok(Told {
            interfaces: interfaces(alloc, program, pool)?,
            wrong_news: wrong_news(alloc, program, pool)?,
        })
    }
}

/// Whether the class of a member item is an interface.
pub(crate) fn is_of_interface(
    program: &Program,
    pool: &[PoolItem],
    told: &[bool],
    item: u16,
) -> bool
    requires { AreTested (names_interface program.now) pool.now told.now }
    ensures { result ≡ names_interface program.now (member_in pool.now item).class }
{
    match told_owner(told, pool, item) {
        Some(is_interface) => is_interface,
        None => program.names_interface(member(pool, item).class),
    }
}

/// Whether `new` may not make an object of the class at an index.
#[tactic(auto, using(link_rules::proofs::MarkLaws::told_tested))]
pub(crate) fn is_wrong_new_at(
    program: &Program,
    pool: &[PoolItem],
    told: &[bool],
    item: u16,
) -> bool
    requires { AreTested (is_wrong_new program.now) pool.now told.now }
    ensures { result ≡ is_wrong_new program.now (class_text pool.now item) }
{
    match told_class(told, pool, item) {
        Some(is_wrong) => is_wrong,
        None => is_wrong_new(program, class_text(pool, item)),
    }
}
