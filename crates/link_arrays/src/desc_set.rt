//! Array types in order of first sight.

ghost use Rattle.std.specs.Prelude.{List as Items, ◌≡◌, ◌<◌, [], length, map, not, position, Some, IfOk, IfSome, OnOk, OnErr};
ghost use Rattle.numbering.specs.Seen.{is_seen, with_item};
ghost use Rattle.program_image.specs.Signatures.{same_desc, same_elem};
ghost use Rattle.link_arrays.specs.Arrays.{array};
ghost use Rattle.link_arrays.specs.Sets.{array_type, shared_type, share_of, AreShared};

use crate::desc_text::desc_text;
use crate::elem::copy_elem;
use indexmap::IndexSet;
use jvm_base::{Desc, Elem, List, NoMemory, Units};
use shared_value::Shared;
use std::alloc::Global;
use std::marker::Model;

/// The most dimensions of an array (JVMS2 4.10).
pub(crate) const MOST_DIMS: u8 = 255;

/// An element type, and the name of the class of its arrays of most dimensions, of which the names of
/// its other array classes are ends.
#[derive(Drop)]
pub(crate) struct ElemShare {
    pub elem: Shared<Elem>,
    pub text: Shared<Units>,
}

/// An array type, with what it shares.
#[derive(Drop)]
pub(crate) struct ArrayType {
    pub dims: u8,
    pub share: ElemShare,
}

/// Array types in order of first sight, each once. An element type stands in memory once, however
/// many types are over it. Contracts see the list of types.
#[derive(Drop)]
pub(crate) struct DescSet {
    elems: IndexSet<Elem>,
    rows: IndexSet<(u8, usize)>,
}

impl Model for DescSet {
    ghost use Rattle.std.specs.Prelude.{List as Items};
    ghost use Rattle.std.specs.Coded.{coded_list};
    ghost use Rattle.jvm_base.specs.declared.desc.Desc.{Desc};
    ghost use Rattle.jvm_base.specs.contracts.desc.Desc.{the_row};
    ghost use Rattle.link_arrays.specs.Sets.{types_of, AreRows};

    ghost Value = { Items Desc };

    ghost coded = { coded_list the_row.coded };

    ghost view = { λ a. types_of a.elems.keys a.rows.keys };

    ghost invariant = { λ a. AreRows a.elems.keys a.rows.keys };
}

/// The place of an element type, which goes last where it is new.
fn elem_place(alloc: Global, elems: &mut IndexSet<Elem>, elem: &Elem) -> Result<usize, NoMemory>
    ensures elems { OnOk result (elems.new.keys ≡ with_item same_elem elems.old.keys elem.now) }
    ensures place { IfOk result (λ n. position (same_elem elem.now) elems.new.keys ≡ Some n) }
    ensures err { OnErr result (elems.new.keys ≡ elems.old.keys) }
{
    let copy = copy_elem(alloc, elem)?;
    let (place, _) = elems.insert_full(copy)?;
    Ok(place)
}

/// What the types over an element type share.
fn share(alloc: Global, elem: &Elem) -> Result<ElemShare, NoMemory>
    ensures { IfOk result (λ share. share ≡ share_of elem.now) }
{
    let longest = Desc {
        dims: MOST_DIMS,
        elem: copy_elem(alloc, elem)?,
    };
    let text = desc_text(alloc, &longest)?;
    Ok(ElemShare {
        elem: Shared::new(alloc, longest.elem)?,
        text: Shared::new(alloc, text)?,
    })
}

/// What the types over each element type share.
fn shares(alloc: Global, elems: &[Elem]) -> Result<List<ElemShare>, NoMemory>
    ensures { IfOk result (λ shares. shares ≡ map share_of elems.now) }
{
    let mut shares = List::new(alloc);
    for elem in elems {
        shares.push(share(alloc, elem)?)?;
    }
    Ok(shares)
}

/// The type of a row. It takes no memory.
fn array_type(share: &ElemShare, dims: u8) -> Result<ArrayType, NoMemory>
    ensures { IfOk result (λ t. t ≡ record { dims = dims; share = share.now }) }
{
    Ok(ArrayType {
        dims,
        share: ElemShare {
            elem: share.elem.share()?,
            text: share.text.share()?,
        },
    })
}

/// The types of rows.
fn array_types(
    alloc: Global,
    shares: &[ElemShare],
    rows: &[(u8, usize)],
) -> Result<List<ArrayType>, NoMemory>
    requires { AreShared shares.now rows.now }
    ensures { IfOk result (λ types. types ≡ map (shared_type shares.now) rows.now) }
{
    let mut types = List::new(alloc);
    for row in rows {
        types.push(array_type(&shares[row.1], row.0)?)?;
    }
    Ok(types)
}

impl DescSet {
    pub fn new(alloc: Global) -> DescSet
        ensures { result ≡ [] }
    {
        DescSet {
            elems: IndexSet::new(alloc),
            rows: IndexSet::new(alloc),
        }
    }

    /// Adds a type where it is new, and tells whether it was.
    pub fn add(&mut self, alloc: Global, dims: u8, elem: &Elem) -> Result<bool, NoMemory>
        ensures fresh { IfOk result
            (λ fresh. fresh ≡ not (is_seen same_desc self.old (array dims elem.now))) }
        ensures types { OnOk result (self.new ≡ with_item same_desc self.old (array dims elem.now)) }
    {
        let place = elem_place(alloc, &mut self.elems, elem)?;
        Ok(self.rows.insert((dims, place))?)
    }

    /// How many types there are.
    pub fn len(&self) -> usize
        ensures { result ≡ length self.now }
    {
        self.rows.len()
    }

    /// The place of a type among them; `None` exactly where it isn't there.
    pub fn place(&self, desc: &Desc) -> Option<usize>
        ensures at { result ≡ position (same_desc desc.now) self.now }
        ensures within { IfSome result (λ k. k < length self.now) }
    {
        let place = self.elems.get_index_of(&desc.elem)?;
        self.rows.get_index_of(&(desc.dims, place))
    }

    /// The types, in order, each with what it shares.
    #[tactic(auto, using(crate::proofs::SetLaws::rows_shared, crate::proofs::SetLaws::types_shared))]
    pub fn types(&self, alloc: Global) -> Result<List<ArrayType>, NoMemory>
        ensures { IfOk result (λ types. types ≡ map array_type self.now) }
    {
        let shares = shares(alloc, self.elems.as_slice())?;
        array_types(alloc, shares.as_slice(), self.rows.as_slice())
    }
}
