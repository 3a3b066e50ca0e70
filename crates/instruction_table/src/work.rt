//! The types of a frame while an instruction works on it.

ghost use Rattle.std.specs.Prelude.{◌≡◌, ◌<◌, ◌∷◌, ◌++◌, ◌+◌, [], drop, length, not, ◌&&◌, replicate, slice_get, slice_set, IfOk, MatchOption, OnOk, None};
ghost use Rattle.flow_types.specs.Tree.{superclasses};
ghost use Rattle.instruction_table.specs.ClassTypes.{new_class, owner_of};
ghost use Rattle.instruction_table.specs.LowestRule.{lowest};
ghost use Rattle.instruction_table.specs.Working.{site_of, read_rules, read_type, taken_rules, room_rules, written, first_or, given, part_of, part_type, group_rules, group_count, doubled_types, begun, new_type, is_own_or_super, fitting_rules, init_rules, inits_rules, is_fresh_this, fills, slot_count, with_stack, written_work, begun_all, inits, group_slots, both_rules, swapped, end_rules, row_rules, next};
ghost use Rattle.instruction_table.specs.Needs.{needs_rules};
ghost use Rattle.flow_types.specs.declared.flow_type.FlowType.TheVariants as flow;

use crate::begin::begin_all;
use crate::class_types::{class_named_at, owner_of};
use crate::lowest::lower;
use crate::need::{is_long, is_reference};
use crate::row::{Gives, Group, Need, Row, Slot};
use crate::rule;
use crate::stack::Stack;
use flow_types::{Element, FlowType, fits, parent};
use jvm_base::NoMemory;
use program_image::Image;
use shared_types::Types;
use std::alloc::Global;

/// The types of locals and of operands, and whether the receiver of an initialiser may still be
/// uninitialised. Contracts see operands with the newest first.
#[derive(Drop)]
pub struct Work {
    pub locals: Types,
    pub stack: Stack,
    pub fresh: bool,
}

fn fills(slot: Slot, t: &FlowType) -> bool
    ensures { result ≡ fills slot t.now }
{
    match slot {
        Slot::Int => matches!(t, FlowType::Int),
        Slot::Long => matches!(t, FlowType::Long),
        Slot::Reference => is_reference(t),
    }
}

/// The rule that a read of a local breaks.
fn read_rule(slot: Slot, local: Option<FlowType>, after: Option<FlowType>) -> Option<u8>
    ensures { result ≡ lowest (read_rules slot local after) }
{
    match (slot, local, after) {
        (_, None, _) => Some(rule::NO_LOCAL),
        (Slot::Long, Some(_), None) => Some(rule::NO_LOCAL),
        (Slot::Long, Some(FlowType::Long), Some(FlowType::High)) => None,
        (Slot::Long, Some(_), Some(_)) => Some(rule::LOCAL),
        (_, Some(t), _) if fills(slot, &t) => None,
        _ => Some(rule::LOCAL),
    }
}

fn read_type(slot: Slot, local: Option<FlowType>) -> FlowType
    ensures { result ≡ read_type slot local }
{
    match (slot, local) {
        (Slot::Int, _) => FlowType::Int,
        (Slot::Long, _) => FlowType::Long,
        (Slot::Reference, Some(t)) if is_reference(&t) => t,
        _ => FlowType::Null,
    }
}

/// Sets a local, where it is there.
fn set_local(alloc: Global, locals: &mut Types, at: usize, t: FlowType) -> Result<(), NoMemory>
    ensures { OnOk result (locals.new ≡ slice_set locals.old at t) }
{
    if at < locals.len() {
        locals.set(alloc, at, t)?;
    }
    Ok(())
}

fn write_local(
    alloc: Global,
    locals: &mut Types,
    slot: Slot,
    local: u16,
    t: FlowType,
) -> Result<(), NoMemory>
    ensures { OnOk result (locals.new ≡ written slot local t locals.old) }
{
    set_local(alloc, locals, local as usize, t)?;
    match slot {
        Slot::Long => set_local(alloc, locals, local as usize + 1, FlowType::High),
        _ => Ok(()),
    }
}

/// The rule that is broken where there are too few locals for one that is written.
fn room_rule(slot: Slot, local: u16, locals: &Types) -> Option<u8>
    ensures { result ≡ lowest (room_rules (local + slot_count slot) locals.now) }
{
    let needed = match slot {
        Slot::Long => local as usize + 2,
        _ => local as usize + 1,
    };
    if needed <= locals.len() {
        None
    } else {
        Some(rule::NO_LOCAL)
    }
}

/// The type of an element of an array of references.
fn part_type(array: FlowType) -> FlowType
    ensures { result ≡ part_type array }
{
    match array {
        FlowType::Array {
            dims,
            elem: Element::Object(class),
        } if dims <= 1 => FlowType::Class(class),
        FlowType::Array { dims, elem } => FlowType::Array {
            dims: dims.saturating_sub(1),
            elem,
        },
        FlowType::Null => FlowType::Null,
        _ => FlowType::Unusable,
    }
}

fn is_own_or_super(image: &Image, method: u32, class: u32) -> bool
    ensures { result ≡ is_own_or_super (site_of image.now method) class }
{
    let owner = owner_of(image, method);
    class == owner || parent(image, owner) == Some(class)
}

/// The type of an uninitialised object once it is initialised.
fn new_type(image: &Image, method: u32, t: FlowType) -> FlowType
    requires { method < length image.now.methods }
    ensures { result ≡ new_type (site_of image.now method) t }
{
    match t {
        FlowType::Fresh(at) => FlowType::Class(class_named_at(image, method, at)),
        _ => FlowType::Class(owner_of(image, method)),
    }
}

/// The rule that a call of an initialiser of the class breaks.
fn init_rule(image: &Image, method: u32, class: u32, t: &FlowType) -> Option<u8>
    requires { method < length image.now.methods }
    ensures { result ≡ lowest (init_rules (site_of image.now method) class t.now) }
{
    let fine = match t {
        FlowType::Fresh(at) => class_named_at(image, method, *at) == class,
        FlowType::FreshThis => is_own_or_super(image, method, class),
        _ => {
            return if !is_reference(t) {
                Some(rule::OPERAND)
            } else if fits(image, t, &FlowType::Class(class)) {
                Some(rule::INITIALISER)
            } else {
                Some(rule::REFERENCE)
            };
        }
    };
    if fine { None } else { Some(rule::INITIALISER) }
}

impl Work {
    /// Reads a local, and tells the rule that this breaks.
    fn read(&mut self, alloc: Global, slot: Slot, local: u16) -> Result<Option<u8>, NoMemory>
        ensures rules { IfOk result (λ r. r
            ≡ lowest (read_rules slot (slice_get self.old.locals local)
            (slice_get self.old.locals (local + 1)))) }
        ensures next { OnOk result
            (self.new ≡ with_stack self.old
            (read_type slot (slice_get self.old.locals local) ∷ self.old.stack)) }
    {
        let found = self.locals.get(local as usize);
        let broken = read_rule(slot, found, self.locals.get(local as usize + 1));
        let t = read_type(slot, found);
        self.stack.push(alloc, t)?;
        Ok(broken)
    }

    /// Writes an operand into a local, and tells the rule that this breaks.
    fn write(&mut self, alloc: Global, slot: Slot, local: u16) -> Result<Option<u8>, NoMemory>
        ensures rules { IfOk result (λ r. r
            ≡ lowest (taken_rules slot self.old.stack
            ++ room_rules (local + slot_count slot) self.old.locals)) }
        ensures next { OnOk result (self.new ≡ written_work slot local self.old) }
    {
        let room = room_rule(slot, local, &self.locals);
        let Some(t) = self.stack.pop() else {
            write_local(alloc, &mut self.locals, slot, local, FlowType::Unusable)?;
            return Ok(lower(Some(rule::MISSING), room));
        };
        write_local(alloc, &mut self.locals, slot, local, t)?;
        if fills(slot, &t) {
            Ok(room)
        } else {
            Ok(lower(Some(rule::OPERAND), room))
        }
    }

    /// The type of what a row pushes over the operands that are there, if it pushes something.
    fn given(&self, gives: Gives) -> Option<FlowType>
        ensures { MatchOption result (given gives self.now.stack ≡ [])
            (λ t. given gives self.now.stack ≡ t ∷ []) }
    {
        match gives {
            Gives::Nothing => None,
            Gives::One(t) => Some(t),
            Gives::Part => Some(part_type(self.stack.second())),
        }
    }

    /// Takes operands and pushes what they give.
    fn act(
        &mut self,
        alloc: Global,
        image: &Image,
        owner: u32,
        needs: &[Need],
        gives: Gives,
    ) -> Result<Option<u8>, NoMemory>
        ensures rules { IfOk result (λ r. r
            ≡ lowest (needs_rules (superclasses image.now) owner needs.now self.old.stack)) }
        ensures next { OnOk result
            (self.new ≡ with_stack self.old
            (given gives self.old.stack ++ drop (length needs.now) self.old.stack)) }
    {
        let given = self.given(gives);
        let broken = self.stack.take(image, owner, needs);
        if let Some(t) = given {
            self.stack.push(alloc, t)?;
        }
        Ok(broken)
    }

    /// Puts a copy of a group below the one under it.
    fn double(&mut self, alloc: Global, top: Group, below: Group) -> Result<Option<u8>, NoMemory>
        ensures rules { IfOk result (λ r. r ≡ lowest (both_rules top below self.old.stack)) }
        ensures next { OnOk result
            (self.new ≡ with_stack self.old (doubled_types top below self.old.stack)) }
    {
        let first = self.stack.take_group(top);
        let second = self.stack.take_group(below);
        let broken = lower(first.rule(), second.rule());
        if let Some(_) = broken {
            self.stack.fill(alloc, 2 * slots_of(top) + slots_of(below))?;
            return Ok(broken);
        }
        self.stack.put(alloc, first)?;
        self.stack.put(alloc, second)?;
        self.stack.put(alloc, first)?;
        Ok(None)
    }

    /// Turns two values.
    fn swap(&mut self, alloc: Global) -> Result<Option<u8>, NoMemory>
        ensures rules { IfOk result (λ r. r ≡ lowest (both_rules Group.One Group.One self.old.stack)) }
        ensures next { OnOk result (self.new ≡ with_stack self.old (swapped self.old.stack)) }
    {
        let Some(top) = self.stack.pop() else {
            return Ok(Some(rule::MISSING));
        };
        let broken = if is_long(&top) {
            Some(rule::OPERAND)
        } else {
            None
        };
        let Some(below) = self.stack.pop() else {
            self.stack.push(alloc, top)?;
            return Ok(lower(broken, Some(rule::MISSING)));
        };
        self.stack.push(alloc, top)?;
        self.stack.push(alloc, below)?;
        if is_long(&below) {
            return Ok(lower(broken, Some(rule::OPERAND)));
        }
        Ok(broken)
    }

    /// Makes each copy of the object's type an initialised one.
    fn begin(
        &mut self,
        alloc: Global,
        image: &Image,
        method: u32,
        object: FlowType,
    ) -> Result<(), NoMemory>
        requires { method < length image.now.methods }
        ensures { OnOk result (self.new ≡ begun_all (site_of image.now method) object self.old) }
    {
        let now = new_type(image, method, object);
        begin_all(alloc, &mut self.locals, object, now)?;
        self.stack.begin(alloc, object, now)?;
        if let FlowType::FreshThis = object {
            self.fresh = false;
        }
        Ok(())
    }

    /// Calls an initialiser of the class.
    #[tactic(auto, using(crate::proofs::LowestLaws::lowest_append))]
    fn init(
        &mut self,
        alloc: Global,
        image: &Image,
        method: u32,
        needs: &[Need],
        class: u32,
        gives: Gives,
    ) -> Result<Option<u8>, NoMemory>
        requires { method < length image.now.methods }
        ensures rules { IfOk result (λ r. r
            ≡ lowest (row_rules (site_of image.now method) (inits needs.now class gives) self.old)) }
        ensures next { OnOk result
            (self.new ≡ next (site_of image.now method) (inits needs.now class gives) self.old) }
    {
        let given = self.given(gives);
        let operands = self.stack.take(image, owner_of(image, method), needs);
        let (object, broken) = match self.stack.pop() {
            None => (FlowType::Null, Some(rule::MISSING)),
            Some(t) => (t, init_rule(image, method, class, &t)),
        };
        self.begin(alloc, image, method, object)?;
        if let Some(t) = given {
            self.stack.push(alloc, t)?;
        }
        Ok(lower(operands, broken))
    }

    /// Returns.
    #[tactic(auto, using(crate::proofs::LowestLaws::lowest_append))]
    fn end(&mut self, image: &Image, owner: u32, needs: &[Need], fits: bool) -> Option<u8>
        ensures rules { result ≡ lowest (needs_rules (superclasses image.now) owner needs.now self.old.stack
            ++ end_rules fits self.old.fresh) }
        ensures next { self.new ≡ with_stack self.old (drop (length needs.now) self.old.stack) }
    {
        let operands = self.stack.take(image, owner, needs);
        let kind = if fits { None } else { Some(rule::RETURN) };
        let begun = if self.fresh {
            Some(rule::INITIALISER)
        } else {
            None
        };
        lower(operands, lower(kind, begun))
    }

    /// Lets a row of a method's instruction work on the frame, and tells the lowest rule that it
    /// breaks there.
    pub fn run(
        &mut self,
        alloc: Global,
        image: &Image,
        method: u32,
        row: &Row,
    ) -> Result<Option<u8>, NoMemory>
        requires { method < length image.now.methods }
        ensures rules { IfOk result (λ r. r ≡ lowest (row_rules (site_of image.now method) row.now self.old)) }
        ensures next { OnOk result (self.new ≡ next (site_of image.now method) row.now self.old) }
    {
        match row {
            Row::Acts { needs, gives } => {
                self.act(
                    alloc,
                    image,
                    owner_of(image, method),
                    needs.as_slice(),
                    *gives,
                )
            }
            Row::Reads { slot, local } => self.read(alloc, *slot, *local),
            Row::Writes { slot, local } => self.write(alloc, *slot, *local),
            Row::Bumps(local) => Ok(read_rule(Slot::Int, self.locals.get(*local as usize), None)),
            Row::Drops(group) => Ok(self.stack.take_group(*group).rule()),
            Row::Doubles { top, below } => self.double(alloc, *top, *below),
            Row::Swaps => self.swap(alloc),
            Row::Inits {
                needs,
                class,
                gives,
            } => self.init(alloc, image, method, needs.as_slice(), *class, *gives),
            Row::Ends { needs, fits } => {
                Ok(self.end(image, owner_of(image, method), needs.as_slice(), *fits))
            }
        }
    }
}

fn slots_of(group: Group) -> u8
    ensures { result ≡ group_slots group }
{
    match group {
        Group::Nothing => 0,
        Group::One => 1,
        Group::Wide => 2,
    }
}
