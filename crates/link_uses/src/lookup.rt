//! Looking fields and methods up.

ghost use Rattle.std.specs.Prelude.{◌≡◌, ◌<◌, ◌^◌, ◌==◌, ◌&&◌, not, length, slice_get, IfOk};
ghost use Rattle.std.specs.List.{list_any};
ghost use Rattle.class_names.specs.Seen.{seen_member};
ghost use Rattle.class_names.specs.Texts.{member_of_pair};
ghost use Rattle.hierarchy.specs.Hierarchy.{row_of};
ghost use Rattle.hierarchy.specs.Joined.{AreJoined};
ghost use Rattle.hierarchy.specs.Walks.{first_some, or_else, has, IsWalked};
ghost use Rattle.link_rules.specs.Numbers.{super_rows, interface_rows, field_rows, supers_of};
ghost use Rattle.link_uses.specs.Lookups.{found_field, found_method};
ghost use Rattle.link_uses.specs.Owned.{found_at, signed_field, signed_class_method, signed_interface_method, signed_method, IsOwned};
ghost use Rattle.link_uses.specs.Tables.{AreTables, HasRanks};
ghost use Rattle.link_uses.specs.TextNumbers.{AreNumbers};

use crate::owned::{Owned, Places};
use crate::text_numbers::{Sign, TextNumbers, holder, pair_sought};
use class_format::{INTERFACE, has_flag};
use class_names::Called;
use hierarchy::joins;
use jvm_base::{List, NoMemory, PoolItem};
use link_rules::Program;
use std::alloc::Global;
use std::marker::Model;

/// A member that was found: the number of the class that declares it, and its place there.
#[derive(Clone, Copy)]
pub struct Found {
    pub class: u32,
    pub place: usize,
}

/// The member of a sign that the class of a number declares itself.
#[tactic(auto, unfolding(crate::specs::Owned::found_at))]
fn own(places: &Places, sign: Sign, number: u32) -> Option<Found>
    ensures { result ≡ found_at places.now.entries sign number }
{
    let place = *places.get(&(number, sign))?;
    Some(Found {
        class: number,
        place,
    })
}

/// The first along a walk upwards.
fn first(places: &Places, sign: Sign, walk: &[u32]) -> Option<Found>
    ensures { result ≡ first_some (found_at places.now.entries sign) walk.now }
{
    for number in walk {
        if let Some(found) = own(places, sign, *number) {
            return Some(found);
        }
    }
    None
}

fn row(table: &[List<u32>], number: u32) -> &[u32]
    ensures { result.now ≡ row_of table.now number }
{
    match table.get(number as usize) {
        Some(row) => row.as_slice(),
        None => &[],
    }
}

/// The first along a walk over superclasses, then along the interfaces of them all.
#[tactic(auto, using(crate::proofs::WalkedLaws::or_first, crate::proofs::WalkedLaws::or_second))]
fn first_in_class(places: &Places, sign: Sign, lineage: &[u32], interfaces: &[u32]) -> Option<Found>
    ensures { result ≡ or_else (first_some (found_at places.now.entries sign) lineage.now)
        (first_some (found_at places.now.entries sign) interfaces.now) }
{
    match first(places, sign, lineage) {
        Some(found) => Some(found),
        None => first(places, sign, interfaces),
    }
}

/// The first along a walk over interfaces, then in Object.
#[tactic(auto, using(crate::proofs::WalkedLaws::or_first, crate::proofs::WalkedLaws::or_second))]
fn first_in_interface(places: &Places, sign: Sign, walk: &[u32]) -> Option<Found>
    ensures { result ≡ or_else (first_some (found_at places.now.entries sign) walk.now)
        (found_at places.now.entries sign 0) }
{
    match first(places, sign, walk) {
        Some(found) => Some(found),
        None => own(places, sign, 0),
    }
}

/// Looks fields and methods up. It keeps for each class the walks upwards from it, the interfaces
/// that it and its superclasses have, each once, and the members that it declares. Contracts see the
/// list of all classes.
#[derive(Drop)]
pub struct Resolver<'p, 'a> {
    program: &'p Program<'a>,
    supers: List<List<u32>>,
    interfaces: List<List<u32>>,
    met: List<List<u32>>,
    fields: List<List<u32>>,
    owned: Owned<'p>,
}

impl<'p, 'a> Model for Resolver<'p, 'a> {
    ghost use Rattle.std.specs.Prelude.{List as Items};
    ghost use Rattle.std.specs.Coded.{coded_list};
    ghost use Rattle.class_format.specs.declared.class.ClassFile.{ClassFile as File};
    ghost use Rattle.class_format.specs.contracts.class.ClassFile.{the_row};
    ghost use Rattle.link_uses.specs.Owned.{IsOwned};
    ghost use Rattle.hierarchy.specs.Joined.{AreJoined};
    ghost use Rattle.link_uses.specs.Tables.{AreTables};

    ghost Value = { Items File };

    ghost coded = { coded_list the_row.coded };

    ghost view = { λ r. r.program.now };

    ghost invariant = { λ r. AreTables r.program.now r.supers r.interfaces r.fields × (AreJoined r.supers r.interfaces r.met × IsOwned r.program.now r.owned) };
}

/// The first member of a sign along the walk for fields from a class on.
fn signed_field(
    places: &Places,
    fields: &[List<u32>],
    sign: Option<Sign>,
    number: u32,
) -> Option<Found>
    ensures { result ≡ signed_field places.now.entries fields.now sign number }
{
    match sign {
        Some(sign) => first(places, sign, row(fields, number)),
        None => None,
    }
}

/// The first method of a sign in a class and its superclasses, then in all superinterfaces.
fn signed_class_method(
    places: &Places,
    supers: &[List<u32>],
    met: &[List<u32>],
    sign: Option<Sign>,
    number: u32,
) -> Option<Found>
    ensures { result ≡ signed_class_method places.now.entries supers.now met.now sign number }
{
    match sign {
        Some(sign) => first_in_class(places, sign, row(supers, number), row(met, number)),
        None => None,
    }
}

/// The first method of a sign in an interface and its superinterfaces, then in Object.
fn signed_interface_method(
    places: &Places,
    interfaces: &[List<u32>],
    sign: Option<Sign>,
    number: u32,
) -> Option<Found>
    ensures { result ≡ signed_interface_method places.now.entries interfaces.now sign number }
{
    match sign {
        Some(sign) => first_in_interface(places, sign, row(interfaces, number)),
        None => None,
    }
}

/// A method of a class or an interface, by its sign.
fn signed_method(
    program: &Program,
    places: &Places,
    supers: &[List<u32>],
    interfaces: &[List<u32>],
    met: &[List<u32>],
    sign: Option<Sign>,
    number: u32,
) -> Option<Found>
    ensures { result ≡ signed_method program.now places.now.entries supers.now interfaces.now
        met.now sign number }
{
    if has_flag(program.flags_at(number as usize), INTERFACE) {
        signed_interface_method(places, interfaces, sign, number)
    } else {
        signed_class_method(places, supers, met, sign, number)
    }
}

/// The field that a member item names.
fn field_named(program: &Program, owned: &Owned, fields: &[List<u32>], m: &Called) -> Option<Found>
    requires owned { IsOwned program.now owned.now }
    requires walked { IsWalked (field_rows program.now) fields.now }
    requires some { 0 < length program.now }
    requires few { length program.now < 2 ^ 25 }
    ensures { result ≡ found_field program.now (seen_member m.now) }
{
    let number = holder(program, m.class);
    signed_field(&owned.fields, fields, owned.sign(m), number)
}

/// The field that the member item of a class and a pair names.
fn field_of_pair(
    program: &Program,
    owned: &Owned,
    fields: &[List<u32>],
    numbers: &TextNumbers,
    pool: &[PoolItem],
    class: u16,
    pair: u16,
) -> Option<Found>
    requires owned { IsOwned program.now owned.now }
    requires walked { IsWalked (field_rows program.now) fields.now }
    requires some { 0 < length program.now }
    requires few { length program.now < 2 ^ 25 }
    requires numbers { AreNumbers program.now pool.now numbers.now }
    ensures { result ≡ found_field program.now
        (member_of_pair pool.now class (slice_get pool.now pair)) }
{
    let sought = pair_sought(program, &owned.names, numbers, pool, class, pair);
    signed_field(&owned.fields, fields, sought.sign, sought.holder)
}

/// The method that a member item names.
fn method_named(
    program: &Program,
    owned: &Owned,
    supers: &[List<u32>],
    interfaces: &[List<u32>],
    met: &[List<u32>],
    m: &Called,
) -> Option<Found>
    requires owned { IsOwned program.now owned.now }
    requires supers { IsWalked (super_rows program.now) supers.now }
    requires interfaces { IsWalked (interface_rows program.now) interfaces.now }
    requires met { AreJoined supers.now interfaces.now met.now }
    requires ranked { HasRanks (interface_rows program.now) }
    requires some { 0 < length program.now }
    requires few { length program.now < 2 ^ 25 }
    ensures { result ≡ found_method program.now (seen_member m.now) }
{
    let number = holder(program, m.class);
    let sign = owned.sign(m);
    signed_method(
        program,
        &owned.methods,
        supers,
        interfaces,
        met,
        sign,
        number,
    )
}

/// The method that the member item of a class and a pair names.
fn method_of_pair(
    program: &Program,
    owned: &Owned,
    supers: &[List<u32>],
    interfaces: &[List<u32>],
    met: &[List<u32>],
    numbers: &TextNumbers,
    pool: &[PoolItem],
    class: u16,
    pair: u16,
) -> Option<Found>
    requires owned { IsOwned program.now owned.now }
    requires supers { IsWalked (super_rows program.now) supers.now }
    requires interfaces { IsWalked (interface_rows program.now) interfaces.now }
    requires met { AreJoined supers.now interfaces.now met.now }
    requires ranked { HasRanks (interface_rows program.now) }
    requires some { 0 < length program.now }
    requires few { length program.now < 2 ^ 25 }
    requires numbers { AreNumbers program.now pool.now numbers.now }
    ensures { result ≡ found_method program.now
        (member_of_pair pool.now class (slice_get pool.now pair)) }
{
    let sought = pair_sought(program, &owned.names, numbers, pool, class, pair);
    let (sign, number) = (sought.sign, sought.holder);
    signed_method(
        program,
        &owned.methods,
        supers,
        interfaces,
        met,
        sign,
        number,
    )
}

fn is_other(walk: &[u32], number: u32, above: u32) -> bool
    ensures { result ≡ list_any (λ k. not (k == number) && (k == above)) walk.now }
{
    for k in walk {
        if *k != number && *k == above {
            return true;
        }
    }
    false
}

fn is_in_supers(program: &Program, supers: &[List<u32>], number: u32, above: u32) -> bool
    requires walked { IsWalked (super_rows program.now) supers.now }
    requires ranked { HasRanks (super_rows program.now) }
    requires inside { number < length program.now }
    ensures { result ≡ has (supers_of program.now number) above }
{
    is_other(row(supers, number), number, above)
}

impl<'p, 'a> Resolver<'p, 'a> {
    /// A resolver with tables of the program's walks.
    #[tactic(auto, using(crate::proofs::WalkedLaws::interfaces_within))]
    pub fn new(
        alloc: Global,
        program: &'p Program<'a>,
        supers: List<List<u32>>,
        interfaces: List<List<u32>>,
        fields: List<List<u32>>,
    ) -> Result<Resolver<'p, 'a>, NoMemory>
        requires { AreTables program.now supers interfaces fields }
        ensures { IfOk result (λ resolver. resolver ≡ program.now) }
    {
        let owned = Owned::new(alloc, program)?;
        let met = joins(alloc, supers.as_slice(), interfaces.as_slice())?;
        Ok(Resolver {
            program,
            supers,
            interfaces,
            met,
            fields,
            owned,
        })
    }

    /// The program whose members are looked up.
    pub fn program(&self) -> &Program<'a>
        ensures { result.now ≡ self.now }
    {
        self.program
    }

    /// The numbers of the texts of a pool.
    pub(crate) fn text_numbers(
        &self,
        alloc: Global,
        pool: &[PoolItem],
    ) -> Result<TextNumbers, NoMemory>
        ensures { IfOk result (λ numbers. AreNumbers self.now pool.now numbers) }
    {
        TextNumbers::new(alloc, self.program, &self.owned.names, pool)
    }

    /// The field that a member item names (JVMS2 5.4.3.2).
    pub fn field(&self, m: &Called) -> Option<Found>
        ensures { result ≡ found_field self.now (seen_member m.now) }
    {
        field_named(self.program, &self.owned, self.fields.as_slice(), m)
    }

    /// The field that the item of a class and a pair names, by the numbers of its texts.
    pub(crate) fn item_field(
        &self,
        numbers: &TextNumbers,
        pool: &[PoolItem],
        class: u16,
        pair: u16,
    ) -> Option<Found>
        requires { AreNumbers self.now pool.now numbers.now }
        ensures { result
            ≡ found_field self.now (member_of_pair pool.now class (slice_get pool.now pair)) }
    {
        let fields = self.fields.as_slice();
        field_of_pair(
            self.program,
            &self.owned,
            fields,
            numbers,
            pool,
            class,
            pair,
        )
    }

    /// The method that a member item names (JVMS2 5.4.3.3, 5.4.3.4).
    pub fn method(&self, m: &Called) -> Option<Found>
        ensures { result ≡ found_method self.now (seen_member m.now) }
    {
        let (supers, interfaces) = (self.supers.as_slice(), self.interfaces.as_slice());
        let met = self.met.as_slice();
        method_named(self.program, &self.owned, supers, interfaces, met, m)
    }

    /// The method that the item of a class and a pair names, by the numbers of its texts.
    pub(crate) fn item_method(
        &self,
        numbers: &TextNumbers,
        pool: &[PoolItem],
        class: u16,
        pair: u16,
    ) -> Option<Found>
        requires { AreNumbers self.now pool.now numbers.now }
        ensures { result
            ≡ found_method self.now (member_of_pair pool.now class (slice_get pool.now pair)) }
    {
        let (supers, interfaces) = (self.supers.as_slice(), self.interfaces.as_slice());
        let (program, owned, met) = (self.program, &self.owned, self.met.as_slice());
        method_of_pair(
            program, owned, supers, interfaces, met, numbers, pool, class, pair,
        )
    }

    /// Whether a class is one of the superclasses of another.
    pub fn is_super(&self, number: u32, above: u32) -> bool
        requires { number < length self.now }
        ensures { result ≡ has (supers_of self.now number) above }
    {
        is_in_supers(self.program, self.supers.as_slice(), number, above)
    }
}
