//! The descriptors of a pool.

ghost use Rattle.std.specs.Prelude.{◌≡◌, map, IfOk, option_and_then};
ghost use Rattle.std.specs.Option.{option_copied};
ghost use Rattle.jvm_base.specs.Descriptors.{desc_of, method_of};
ghost use Rattle.constant_pool.specs.Items.{text_at};
ghost use Rattle.code_table.specs.Steps.Descs.{field_in, method_in};

use jvm_base::{Desc, List, MethodDesc, NameErr, NoMemory, Pool, PoolItem};
use shared_value::Shared;
use std::alloc::Global;
use std::marker::Model;

/// A pool, and the descriptors that its texts are, each read once and kept once, however many
/// instructions name it. Contracts see the pool.
#[derive(Drop)]
pub struct Descs<'a> {
    pool: &'a Pool,
    fields: List<Option<Shared<Desc>>>,
    methods: List<Option<Shared<MethodDesc>>>,
}

impl<'a> Model for Descs<'a> {
    ghost use Rattle.std.specs.Prelude.{◌≡◌, List as Items, map};
    ghost use Rattle.jvm_base.specs.declared.pool.PoolItem.{PoolItem};
    ghost use Rattle.code_table.specs.Steps.Descs.{field_in, method_in};

    ghost Value = { Items PoolItem };

    ghost view = { λ d. d.pool.now };

    ghost invariant = { λ d. (d.fields ≡ map field_in d.pool.now)
        × (d.methods ≡ map method_in d.pool.now) };
}

/// The descriptor of a field that an item is.
fn field_in(alloc: Global, item: &PoolItem) -> Result<Option<Shared<Desc>>, NoMemory>
    ensures { IfOk result (λ desc. desc ≡ field_in item.now) }
{
    let PoolItem::Utf8(text) = item else {
        return Ok(None);
    };
    match Desc::read_field(alloc, text) {
        Ok(desc) => Ok(Some(Shared::new(alloc, desc)?)),
        Err(NameErr::NoMemory) => Err(NoMemory),
        Err(_) => Ok(None),
    }
}

/// The descriptor of a method that an item is.
fn method_in(alloc: Global, item: &PoolItem) -> Result<Option<Shared<MethodDesc>>, NoMemory>
    ensures { IfOk result (λ desc. desc ≡ method_in item.now) }
{
    let PoolItem::Utf8(text) = item else {
        return Ok(None);
    };
    match MethodDesc::read_method(alloc, text) {
        Ok(desc) => Ok(Some(Shared::new(alloc, desc)?)),
        Err(NameErr::NoMemory) => Err(NoMemory),
        Err(_) => Ok(None),
    }
}

fn fields_in(alloc: Global, pool: &[PoolItem]) -> Result<List<Option<Shared<Desc>>>, NoMemory>
    ensures { IfOk result (λ fields. fields ≡ map field_in pool.now) }
{
    let mut fields = List::new(alloc);
    for item in pool {
        fields.push(field_in(alloc, item)?)?;
    }
    Ok(fields)
}

fn methods_in(
    alloc: Global,
    pool: &[PoolItem],
) -> Result<List<Option<Shared<MethodDesc>>>, NoMemory>
    ensures { IfOk result (λ methods. methods ≡ map method_in pool.now) }
{
    let mut methods = List::new(alloc);
    for item in pool {
        methods.push(method_in(alloc, item)?)?;
    }
    Ok(methods)
}

impl<'a> Descs<'a> {
    /// Reads the descriptors of a pool, in time and memory that grow with its texts.
    pub fn of(alloc: Global, pool: &'a Pool) -> Result<Descs<'a>, NoMemory>
        ensures { IfOk result (λ descs. descs ≡ pool.now) }
    {
        Ok(Descs {
            pool,
            fields: fields_in(alloc, pool.as_slice())?,
            methods: methods_in(alloc, pool.as_slice())?,
        })
    }

    /// The pool.
    pub fn pool(&self) -> &Pool
        ensures { result.now ≡ self.now }
    {
        self.pool
    }

    /// The descriptor of a field that the text at an index is.
    pub fn field(&self, at: u16) -> Option<&Shared<Desc>>
        ensures { option_copied result ≡ option_and_then desc_of (text_at self.now at) }
    {
        match self.fields.get(at as usize) {
            Some(Some(desc)) => Some(desc),
            _ => None,
        }
    }

    /// The descriptor of a method that the text at an index is.
    pub fn method(&self, at: u16) -> Option<&Shared<MethodDesc>>
        ensures { option_copied result ≡ option_and_then method_of (text_at self.now at) }
    {
        match self.methods.get(at as usize) {
            Some(Some(desc)) => Some(desc),
            _ => None,
        }
    }
}
