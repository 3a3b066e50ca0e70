//! The objects that are there, by name.

ghost use Rattle.std.specs.Prelude.{◌≡◌, ◌++◌, [], OnOk, OnErr, is_some, option_map};
ghost use Rattle.std.specs.Option.{option_copied};
ghost use Rattle.std.specs.Map.{remove_entry};
ghost use Rattle.std.specs.BTreeMap.{is_at};
ghost use Rattle.jvm_base.specs.Names.{name_cmp};
ghost use Rattle.jvm_base.specs.Maps.{put};
ghost use Rattle.jvm_base.specs.declared.value.ObjectBody.TheVariants.{Text};
ghost use Rattle.machine_state.specs.State.{body_at};
ghost use Rattle.machine_state.specs.Changes.{altered, with_field, with_element, with_content};
ghost use Rattle.machine_state.specs.Serving.{content_of};
ghost use Rattle.machine_state.specs.Step.{text_in};
ghost use Rattle.step_serve.specs.Cells.{lent_body};
ghost use Rattle.shared_state.specs.Stored.{stored_body};

use crate::stored::{Stored, append, content, copied, keep, lend, set_element, set_field};
use jvm_base::{Name, NoMemory, ObjectBody, Value};
use std::alloc::Global;
use std::collections::BTreeMap;
use std::marker::Model;
use step_serve::BodyRef;

/// The bodies of all names that are there.
#[derive(Drop)]
pub(crate) struct Heap {
    objects: BTreeMap<Name, Stored>,
}

impl Model for Heap {
    ghost use Rattle.std.specs.Prelude.{List as Items};
    ghost use Rattle.jvm_base.specs.declared.name.Name.{Name};
    ghost use Rattle.jvm_base.specs.declared.value.ObjectBody.{ObjectBody};
    ghost use Rattle.shared_state.specs.Stored.{heap_of};

    ghost Value = { Items (Name × ObjectBody) };

    ghost view = { λ a. heap_of a.objects.entries };
}

impl Heap {
    /// No objects. It takes no memory.
    pub fn new(alloc: Global) -> Heap
        ensures { result ≡ [] }
    {
        Heap {
            objects: BTreeMap::new(alloc),
        }
    }

    /// The object of a name.
    #[tactic(auto, using(crate::proofs::StoredLaws::found_there))]
    fn object(&self, name: Name) -> Option<&Stored>
        ensures { option_map stored_body (option_copied result) ≡ body_at self.now name }
    {
        self.objects.get(&name)
    }

    /// The body of a name; `None` exactly where there is no such object.
    pub fn body(&self, name: Name) -> Option<BodyRef<'_>>
        ensures { option_map lent_body result ≡ body_at self.now name }
    {
        match self.object(name) {
            Some(object) => Some(lend(object)),
            None => None,
        }
    }

    /// Whether there is an object of the name.
    pub fn has(&self, name: Name) -> bool
        ensures { result ≡ is_some (body_at self.now name) }
    {
        self.object(name).is_some()
    }

    /// The content of the String or buffer of a name; `None` exactly where there is no such one.
    pub fn text(&self, name: Name) -> Option<&[u16]>
        ensures { option_copied result ≡ text_in (body_at self.now name) }
    {
        match self.object(name) {
            Some(object) => content(object),
            None => None,
        }
    }

    /// An object is there under the name, in place of any other.
    fn put(&mut self, name: Name, object: Stored) -> Result<(), NoMemory>
        ensures ok { OnOk result (self.new ≡ put name_cmp name (stored_body object) self.old) }
        ensures err { OnErr result (self.new ≡ self.old) }
    {
        self.objects.insert(name, object)?;
        Ok(())
    }

    /// An object is made under the name, in place of any other.
    pub fn make(&mut self, alloc: Global, name: Name, body: ObjectBody) -> Result<(), NoMemory>
        ensures ok { OnOk result (self.new ≡ put name_cmp name body self.old) }
        ensures err { OnErr result (self.new ≡ self.old) }
    {
        let object = keep(alloc, body)?;
        self.put(name, object)
    }

    /// A String of the units is made under the name, in place of any other.
    pub fn make_text(&mut self, alloc: Global, name: Name, units: &[u16]) -> Result<(), NoMemory>
        ensures ok { OnOk result (self.new ≡ put name_cmp name (Text units.now) self.old) }
        ensures err { OnErr result (self.new ≡ self.old) }
    {
        let text = copied(alloc, units)?;
        self.put(name, Stored::Text(text))
    }

    /// An object goes. It takes no memory.
    pub fn unmake(&mut self, name: Name)
        ensures { self.new ≡ remove_entry (is_at (name_cmp name)) self.old }
    {
        let _ = self.objects.remove(&name);
    }

    /// A field of an object takes a value, if there is such a field. It takes no memory.
    pub fn set_field(&mut self, name: Name, place: u32, value: Value)
        ensures { self.new ≡ altered self.old name (with_field place value) }
    {
        match self.objects.get_mut(&name) {
            Some(body) => set_field(body, place, value),
            None => {}
        }
    }

    /// An element of an array takes a value, if there is such an element. It takes no memory.
    pub fn set_element(&mut self, name: Name, place: u32, value: Value)
        ensures { self.new ≡ altered self.old name (with_element place value) }
    {
        match self.objects.get_mut(&name) {
            Some(body) => set_element(body, place, value),
            None => {}
        }
    }

    /// Units are put behind the content of a String or buffer, if there is such a one.
    pub fn append(&mut self, name: Name, units: &[u16]) -> Result<(), NoMemory>
        ensures ok { OnOk result (self.new ≡ altered self.old name
            (with_content (content_of (body_at self.old name) ++ units.now))) }
        ensures err { OnErr result (self.new ≡ self.old) }
    {
        match self.objects.get_mut(&name) {
            Some(body) => append(body, units),
            None => Ok(()),
        }
    }
}
