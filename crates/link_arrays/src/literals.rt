//! The contents of string literals.

ghost use Rattle.std.specs.Prelude.{◌≡◌, ◌+◌, ◌<◌, ◌^◌, [], length, map, slice_get, IfOk, OnOk, IfSome};
ghost use Rattle.std.specs.List.{flat_map};
ghost use Rattle.class_names.specs.Classes.{codes_of};
ghost use Rattle.class_names.specs.Known.{is_name};
ghost use Rattle.class_names.specs.Texts.{text_in};
ghost use Rattle.numbering.specs.Seen.{with_item};
ghost use Rattle.link_arrays.specs.Marks.{AreContents};
ghost use Rattle.link_arrays.specs.Literals.{contents_at, field_literals, op_literals, code_literals, file_literals, with_contents, literals, literal_number, literal_name};

use crate::marks::{is_marked, mark, no_marks};
use class_format::{ClassFile, FieldItem};
use class_names::text;
use code_table::{Code, Op, Placed};
use indexmap::IndexSet;
use jvm_base::{List, Name, NoMemory, PoolItem, Units};
use link_rules::ops;
use std::alloc::Global;
use std::marker::Model;

/// The node of names that no step makes.
const PREMADE_NODE: u8 = 255;

/// The number of `java/lang/String`.
const STRING_CLASS: u32 = 2;

/// Contents of string literals in order of first sight, each once. They lie in the files' pools.
/// Contracts see the list of them.
#[derive(Drop)]
pub struct Literals<'a> {
    contents: IndexSet<&'a [u16]>,
}

impl<'a> Model for Literals<'a> {
    ghost use Rattle.std.specs.Prelude.{List as Items, ℕ, map};

    ghost Value = { Items (Items ℕ) };

    ghost view = { λ a. map (λ x. x.now) a.contents.keys };
}

impl<'a> Literals<'a> {
    fn new(alloc: Global) -> Literals<'a>
        ensures { result ≡ [] }
    {
        Literals {
            contents: IndexSet::new(alloc),
        }
    }

    fn add(&mut self, content: &'a [u16]) -> Result<(), NoMemory>
        ensures { OnOk result (self.new ≡ with_item is_name self.old content.now) }
    {
        self.contents.insert(content)?;
        Ok(())
    }

    /// Adds the content of the text at an index, where the text isn't marked, and marks it.
    #[tactic(auto, using(crate::proofs::MarkLaws::has_content, crate::proofs::MarkLaws::more_contents))]
    fn add_text(
        &mut self,
        marks: &mut List<bool>,
        pool: &'a [PoolItem],
        index: u16,
    ) -> Result<(), NoMemory>
        requires { AreContents pool.now marks.old self.old }
        ensures contents { OnOk result
            (self.new ≡ with_item is_name self.old (text_in pool.now index)) }
        ensures marks { OnOk result (AreContents pool.now marks.new self.new) }
    {
        if is_marked(marks, index) {
            return Ok(());
        }
        self.add(text(pool, index))?;
        mark(marks, index);
        Ok(())
    }

    /// Adds the content of the item at an index, if it's a String.
    fn add_at(
        &mut self,
        marks: &mut List<bool>,
        pool: &'a [PoolItem],
        index: u16,
    ) -> Result<(), NoMemory>
        requires { AreContents pool.now marks.old self.old }
        ensures contents { OnOk result
            (self.new ≡ with_contents self.old (contents_at pool.now index)) }
        ensures marks { OnOk result (AreContents pool.now marks.new self.new) }
    {
        match pool.get(index as usize) {
            Some(PoolItem::Text(index)) => self.add_text(marks, pool, *index),
            _ => Ok(()),
        }
    }

    fn add_field(
        &mut self,
        marks: &mut List<bool>,
        pool: &'a [PoolItem],
        field: &FieldItem,
    ) -> Result<(), NoMemory>
        requires { AreContents pool.now marks.old self.old }
        ensures contents { OnOk result
            (self.new ≡ with_contents self.old (field_literals pool.now field.now)) }
        ensures marks { OnOk result (AreContents pool.now marks.new self.new) }
    {
        match field.constant {
            Some(index) => self.add_at(marks, pool, index),
            None => Ok(()),
        }
    }

    fn add_fields(
        &mut self,
        marks: &mut List<bool>,
        pool: &'a [PoolItem],
        fields: &[FieldItem],
    ) -> Result<(), NoMemory>
        requires { AreContents pool.now marks.old self.old }
        ensures contents { OnOk result
            (self.new ≡ with_contents self.old (flat_map (field_literals pool.now) fields.now)) }
        ensures marks { OnOk result (AreContents pool.now marks.new self.new) }
    {
        for field in fields {
            self.add_field(marks, pool, field)?;
        }
        Ok(())
    }

    fn add_op(
        &mut self,
        marks: &mut List<bool>,
        pool: &'a [PoolItem],
        op: &Op,
    ) -> Result<(), NoMemory>
        requires { AreContents pool.now marks.old self.old }
        ensures contents { OnOk result
            (self.new ≡ with_contents self.old (op_literals pool.now op.now)) }
        ensures marks { OnOk result (AreContents pool.now marks.new self.new) }
    {
        match op {
            Op::Ldc(index) => self.add_at(marks, pool, *index),
            _ => Ok(()),
        }
    }

    fn add_ops(
        &mut self,
        marks: &mut List<bool>,
        pool: &'a [PoolItem],
        ops: &[Placed],
    ) -> Result<(), NoMemory>
        requires { AreContents pool.now marks.old self.old }
        ensures contents { OnOk result
            (self.new ≡ with_contents self.old (flat_map (λ p. op_literals pool.now p.op) ops.now)) }
        ensures marks { OnOk result (AreContents pool.now marks.new self.new) }
    {
        for placed in ops {
            self.add_op(marks, pool, &placed.op)?;
        }
        Ok(())
    }

    #[tactic(auto, using(crate::proofs::SeenLaws::items_more))]
    fn add_codes(
        &mut self,
        marks: &mut List<bool>,
        pool: &'a [PoolItem],
        codes: &[Option<Code>],
    ) -> Result<(), NoMemory>
        requires { AreContents pool.now marks.old self.old }
        ensures contents { OnOk result
            (self.new ≡ with_contents self.old (flat_map (code_literals pool.now) codes.now)) }
        ensures marks { OnOk result (AreContents pool.now marks.new self.new) }
    {
        for code in codes {
            self.add_ops(marks, pool, ops(code))?;
        }
        Ok(())
    }

    /// Adds the literals of a file: those of its fields before those of its code.
    #[tactic(auto, using(crate::proofs::SeenLaws::items_append, crate::proofs::MarkLaws::no_contents))]
    fn add_file(
        &mut self,
        alloc: Global,
        file: &'a ClassFile,
        codes: &[Option<Code>],
    ) -> Result<(), NoMemory>
        requires { codes.now ≡ codes_of file.now }
        ensures { OnOk result (self.new ≡ with_contents self.old (file_literals file.now)) }
    {
        let pool = file.pool.as_slice();
        let mut marks = no_marks(alloc, pool)?;
        self.add_fields(&mut marks, pool, file.fields.as_slice())?;
        self.add_codes(&mut marks, pool, codes)
    }

    /// The literals of these files.
    #[tactic(auto, using(crate::proofs::SeenLaws::items_more), unfolding(crate::specs::Literals::literals))]
    pub fn of(
        alloc: Global,
        files: &'a [ClassFile],
        codes: &[List<Option<Code>>],
    ) -> Result<Literals<'a>, NoMemory>
        requires { codes.now ≡ map codes_of files.now }
        ensures { IfOk result (λ contents. contents ≡ literals files.now) }
    {
        let mut all = Literals::new(alloc);
        for i in 0..files.len() {
            all.add_file(alloc, &files[i], codes[i].as_slice())?;
        }
        Ok(all)
    }

    /// The number of the literal of a content; `None` exactly where it's no literal's.
    pub fn number(&self, content: &[u16]) -> Option<usize>
        ensures at { result ≡ literal_number self.now content.now }
        ensures within { IfSome result (λ k. k < length self.now) }
    {
        self.contents.get_index_of(content)
    }

    /// The contents, by number.
    pub fn contents(&self, alloc: Global) -> Result<List<Units>, NoMemory>
        ensures { IfOk result (λ contents. contents ≡ self.now) }
    {
        let mut contents = List::new(alloc);
        for content in self.contents.as_slice() {
            contents.push(Units::from_slice(alloc, content)?)?;
        }
        Ok(contents)
    }
}

/// The name of the String that is there for a literal, in a program of so many classes.
pub fn literal_name(classes: u32, literal: u32) -> Name
    requires { classes + literal < 2 ^ 32 }
    ensures { result ≡ literal_name classes literal }
{
    Name {
        node: PREMADE_NODE,
        class: STRING_CLASS,
        index: classes + literal,
    }
}
