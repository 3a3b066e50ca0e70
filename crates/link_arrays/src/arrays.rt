//! The array types of a program.

ghost use Rattle.std.specs.Prelude.{◌≡◌, ◌+◌, ◌≤◌, ◌<◌, [], ◌∷◌, length, map, not, option_map, position, Some, IfOk, OnOk, IfSome};
ghost use Rattle.std.specs.List.{flat_map};
ghost use Rattle.jvm_base.specs.Told.{Gives, itself};
ghost use Rattle.class_names.specs.Classes.{codes_of};
ghost use Rattle.numbering.specs.Seen.{is_seen, with_item};
ghost use Rattle.program_image.specs.Signatures.{same_desc};
ghost use Rattle.link_arrays.specs.Arrays.{array, with_parts, op_types, code_types, file_types, strings, with_types};
ghost use Rattle.link_arrays.specs.Marks.{key_of, AreAdded};
ghost use Rattle.link_arrays.specs.Sets.{array_type};
ghost use Rattle.link_arrays.specs.Counting.{counted, arrays_of, told, Adds, AreClosed, AreSoFar};

use crate::desc_set::{ArrayType, DescSet};
use crate::error::ArraysErr;
use crate::marks::{Key, Keys, key_of};
use crate::named::op_array;
use class_format::ClassFile;
use code_table::{Code, Op, Placed};
use jvm_base::{Desc, Elem, List, NoMemory, PoolItem, Units};
use link_rules::ops;
use std::alloc::Global;
use std::marker::Model;

/// The most classes of a program.
const CLASS_LIMIT: usize = 16_777_216;

/// `java/lang/String`
const STRING: [u16; 16] = [
    106, 97, 118, 97, 47, 108, 97, 110, 103, 47, 83, 116, 114, 105, 110, 103,
];

/// Array types in order of first sight, each once. Contracts see the list of them.
#[derive(Drop)]
pub struct Arrays {
    types: DescSet,
}

impl Model for Arrays {
    ghost use Rattle.std.specs.Prelude.{List as Items};
    ghost use Rattle.std.specs.Coded.{coded_list};
    ghost use Rattle.jvm_base.specs.declared.desc.Desc.{Desc};
    ghost use Rattle.jvm_base.specs.contracts.desc.Desc.{the_row};

    ghost Value = { Items Desc };

    ghost coded = { coded_list the_row.coded };

    ghost view = { λ a. a.types };
}

impl Arrays {
    fn new(alloc: Global) -> Arrays
        ensures { result ≡ [] }
    {
        Arrays {
            types: DescSet::new(alloc),
        }
    }

    /// Adds a type where it is new, and tells whether it was.
    fn add(&mut self, alloc: Global, dims: u8, elem: &Elem) -> Result<bool, NoMemory>
        ensures fresh { IfOk result
            (λ fresh. fresh ≡ not (is_seen same_desc self.old (array dims elem.now))) }
        ensures types { OnOk result (self.new ≡ with_item same_desc self.old (array dims elem.now)) }
    {
        self.types.add(alloc, dims, elem)
    }

    /// Adds a type and its parts that are arrays. It stops at the first that isn't new, whose own
    /// parts are there.
    #[tactic(auto, using(crate::proofs::Levels::levels_stop, crate::proofs::Levels::lower_more, crate::proofs::Levels::levels_more))]
    fn add_parts(&mut self, alloc: Global, desc: &Desc) -> Result<(), NoMemory>
        requires { AreClosed self.old }
        ensures { OnOk result (self.new ≡ with_types self.old (with_parts desc.now)) }
    {
        let mut dims = desc.dims;
        while dims > 0 {
            if !self.add(alloc, dims, &desc.elem)? {
                return Ok(());
            }
            dims -= 1;
        }
        Ok(())
    }

    /// Refuses the types where they are too many beside the declared classes.
    fn count(&self, declared: usize) -> Result<(), ArraysErr>
        ensures { Gives told (λ _. self.now) result (counted declared self.now) }
    {
        if declared.saturating_add(self.types.len()) > CLASS_LIMIT {
            Err(ArraysErr::TooMany)
        } else {
            Ok(())
        }
    }

    /// Adds the types that an instruction names.
    fn add_named(
        &mut self,
        alloc: Global,
        declared: usize,
        pool: &[PoolItem],
        op: &Op,
    ) -> Result<(), ArraysErr>
        requires { AreClosed self.old }
        ensures { Adds declared self.old (op_types pool.now op.now) result self.new }
    {
        if let Some(desc) = op_array(alloc, pool, op)? {
            self.add_parts(alloc, &desc)?;
        }
        self.count(declared)
    }

    /// Adds the types that an instruction names by a key, where the key is new.
    #[tactic(auto, using(crate::proofs::MarkLaws::has_added, crate::proofs::MarkLaws::more_added))]
    fn add_key(
        &mut self,
        alloc: Global,
        declared: usize,
        keys: &mut Keys,
        pool: &[PoolItem],
        op: &Op,
        key: Key,
    ) -> Result<(), ArraysErr>
        requires so_far { AreSoFar declared self.old }
        requires added { AreAdded pool.now keys.old self.old }
        requires key { key_of pool.now op.now ≡ Some key }
        ensures types { Adds declared self.old (op_types pool.now op.now) result self.new }
        ensures added { OnOk result (AreAdded pool.now keys.new self.new) }
    {
        if keys.has(key) {
            return Ok(());
        }
        self.add_named(alloc, declared, pool, op)?;
        keys.add(key);
        Ok(())
    }

    /// Adds the types that an instruction names, of which those of some keys are there.
    #[tactic(auto, using(crate::proofs::MarkLaws::stay_added))]
    fn add_op(
        &mut self,
        alloc: Global,
        declared: usize,
        keys: &mut Keys,
        pool: &[PoolItem],
        op: &Op,
    ) -> Result<(), ArraysErr>
        requires so_far { AreSoFar declared self.old }
        requires added { AreAdded pool.now keys.old self.old }
        ensures types { Adds declared self.old (op_types pool.now op.now) result self.new }
        ensures added { OnOk result (AreAdded pool.now keys.new self.new) }
    {
        match key_of(pool, op) {
            Some(key) => self.add_key(alloc, declared, keys, pool, op, key),
            None => self.add_named(alloc, declared, pool, op),
        }
    }

    /// Adds the types that some instructions name.
    #[tactic(auto, using(crate::proofs::Counted::types_break, crate::proofs::Counted::counted_few))]
    fn add_ops(
        &mut self,
        alloc: Global,
        declared: usize,
        keys: &mut Keys,
        pool: &[PoolItem],
        ops: &[Placed],
    ) -> Result<(), ArraysErr>
        requires so_far { AreSoFar declared self.old }
        requires added { AreAdded pool.now keys.old self.old }
        ensures types { Adds declared self.old (flat_map (λ p. op_types pool.now p.op) ops.now) result
            self.new }
        ensures so_far { OnOk result (AreSoFar declared self.new) }
        ensures added { OnOk result (AreAdded pool.now keys.new self.new) }
    {
        for placed in ops {
            self.add_op(alloc, declared, keys, pool, &placed.op)?;
        }
        Ok(())
    }

    /// Adds the types that some code names.
    fn add_code(
        &mut self,
        alloc: Global,
        declared: usize,
        keys: &mut Keys,
        pool: &[PoolItem],
        code: &Option<Code>,
    ) -> Result<(), ArraysErr>
        requires so_far { AreSoFar declared self.old }
        requires added { AreAdded pool.now keys.old self.old }
        ensures types { Adds declared self.old (code_types pool.now code.now) result self.new }
        ensures so_far { OnOk result (AreSoFar declared self.new) }
        ensures added { OnOk result (AreAdded pool.now keys.new self.new) }
    {
        self.add_ops(alloc, declared, keys, pool, ops(code))
    }

    #[tactic(auto, using(crate::proofs::Counted::types_break, crate::proofs::Counted::counted_few))]
    fn add_codes(
        &mut self,
        alloc: Global,
        declared: usize,
        keys: &mut Keys,
        pool: &[PoolItem],
        codes: &[Option<Code>],
    ) -> Result<(), ArraysErr>
        requires so_far { AreSoFar declared self.old }
        requires added { AreAdded pool.now keys.old self.old }
        ensures types { Adds declared self.old (flat_map (code_types pool.now) codes.now) result self.new }
        ensures so_far { OnOk result (AreSoFar declared self.new) }
    {
        for code in codes {
            self.add_code(alloc, declared, keys, pool, code)?;
        }
        Ok(())
    }

    /// Adds the types that a file's code names.
    #[tactic(auto, using(crate::proofs::MarkLaws::none_added))]
    fn add_file(
        &mut self,
        alloc: Global,
        declared: usize,
        file: &ClassFile,
        codes: &[Option<Code>],
    ) -> Result<(), ArraysErr>
        requires so_far { AreSoFar declared self.old }
        requires codes { codes.now ≡ codes_of file.now }
        ensures types { Adds declared self.old (file_types file.now) result self.new }
        ensures so_far { OnOk result (AreSoFar declared self.new) }
    {
        let pool = file.pool.as_slice();
        let mut keys = Keys::new(alloc, pool)?;
        self.add_codes(alloc, declared, &mut keys, pool, codes)
    }

    /// Adds the types that the files' code names.
    #[tactic(auto, using(crate::proofs::Counted::types_break, crate::proofs::Counted::counted_few))]
    fn add_files(
        &mut self,
        alloc: Global,
        declared: usize,
        files: &[ClassFile],
        codes: &[List<Option<Code>>],
    ) -> Result<(), ArraysErr>
        requires so_far { AreSoFar declared self.old }
        requires codes { codes.now ≡ map codes_of files.now }
        ensures { Adds declared self.old (flat_map file_types files.now) result self.new }
    {
        for i in 0..files.len() {
            self.add_file(alloc, declared, &files[i], codes[i].as_slice())?;
        }
        Ok(())
    }

    /// The type of what `main` is given.
    fn strings(alloc: Global) -> Result<Arrays, NoMemory>
        ensures { IfOk result (λ arrays. arrays ≡ strings ∷ []) }
    {
        let string = Elem::Object(Units::from_slice(alloc, &STRING)?);
        let mut arrays = Arrays::new(alloc);
        arrays.add(alloc, 1, &string)?;
        Ok(arrays)
    }

    /// The array types of a program of these files, which has so many declared classes, boot
    /// classes among them. Too many are told as soon as they are seen.
    #[tactic(auto, using(crate::proofs::Counted::start_break, crate::proofs::Counted::start_so_far), unfolding(crate::specs::Arrays::array_types))]
    pub fn of(
        alloc: Global,
        declared: usize,
        files: &[ClassFile],
        codes: &[List<Option<Code>>],
    ) -> Result<Arrays, ArraysErr>
        requires { codes.now ≡ map codes_of files.now }
        ensures { Gives told itself result (arrays_of declared files.now) }
    {
        let mut arrays = Arrays::strings(alloc)?;
        arrays.count(declared)?;
        arrays.add_files(alloc, declared, files, codes)?;
        Ok(arrays)
    }

    /// How many types there are.
    pub fn len(&self) -> usize
        ensures { result ≡ length self.now }
    {
        self.types.len()
    }

    /// The types, in order, each with what it shares.
    pub(crate) fn types(&self, alloc: Global) -> Result<List<ArrayType>, NoMemory>
        ensures { IfOk result (λ types. types ≡ map array_type self.now) }
    {
        self.types.types(alloc)
    }

    /// The place of a type among them; `None` exactly where it isn't there.
    pub fn place(&self, desc: &Desc) -> Option<usize>
        ensures at { result ≡ position (same_desc desc.now) self.now }
        ensures within { IfSome result (λ k. k < length self.now) }
    {
        self.types.place(desc)
    }
}
