//! What an opcode's instruction is, and what stands behind it.

ghost use Rattle.std.specs.Prelude.{◌≡◌, slice_get};
ghost use Rattle.std.specs.Option.{unwrap_or};
ghost use Rattle.code_table.specs.declared.kind.Kind.TheVariants.{Unknown as NoKind};
ghost use Rattle.code_table.specs.Forms.{size};
ghost use Rattle.code_table.specs.Table.{form_at, IsOrdered};
ghost use Rattle.code_table.specs.Steps.Kinds.{form_of};

/// What stands behind an opcode, and the instructions that it makes: the forms of the table, with
/// instructions that are made alike under one name.
#[derive(Clone, Copy)]
pub(crate) enum Kind {
    Alone(Simple),
    Byte,
    Short,
    Local(Access),
    LocalAndByte,
    Near(Jump),
    Far,
    Constant,
    ConstantW,
    Constant2W,
    OnField(Member),
    OnMethod,
    OnInterface,
    OnClass(Use),
    ElementClass,
    ElementKind,
    Dimensions,
    TableSwitch,
    LookupSwitch,
    Wide,
    LeftOut,
    LeftOutLocal,
    Unknown,
}

/// Instructions without operands. `LoadN` and `StoreN` have their local in the opcode.
#[derive(Clone, Copy)]
pub(crate) enum Simple {
    Nop,
    AconstNull,
    Iconst,
    Lconst,
    LoadN,
    ArrayLoad,
    StoreN,
    ArrayStore,
    Pop,
    Dup,
    Swap,
    Arith,
    Divide,
    Negate,
    Shift,
    Bits,
    Resize,
    Lcmp,
    Return,
    ArrayLength,
    Athrow,
    Monitor,
}

/// Instructions on a local that have a wide form.
#[derive(Clone, Copy)]
pub(crate) enum Access {
    Load,
    Store,
}

/// Jumps by an offset of two bytes.
#[derive(Clone, Copy)]
pub(crate) enum Jump {
    IfZero,
    IfInts,
    IfRefs,
    IfNull,
    Goto,
}

/// Whose the field is: a class's or an object's.
#[derive(Clone, Copy)]
pub(crate) enum Member {
    Static,
    Field,
}

/// What is done with a class.
#[derive(Clone, Copy)]
pub(crate) enum Use {
    New,
    Cast,
}

use Access::*;
use Jump::*;
use Kind::*;
use Member::*;
use Simple::*;
use Use::*;

/// The kinds of the opcodes up to `jsr_w`, behind which there are none.
static KINDS: [Kind; 202] = [
    Alone(Nop),
    Alone(AconstNull),
    Alone(Iconst),
    Alone(Iconst),
    Alone(Iconst),
    Alone(Iconst),
    Alone(Iconst),
    Alone(Iconst),
    Alone(Iconst),
    Alone(Lconst),
    Alone(Lconst),
    LeftOut,
    LeftOut,
    LeftOut,
    LeftOut,
    LeftOut,
    Byte,
    Short,
    Constant,
    ConstantW,
    Constant2W,
    Local(Load),
    Local(Load),
    LeftOutLocal,
    LeftOutLocal,
    Local(Load),
    Alone(LoadN),
    Alone(LoadN),
    Alone(LoadN),
    Alone(LoadN),
    Alone(LoadN),
    Alone(LoadN),
    Alone(LoadN),
    Alone(LoadN),
    LeftOut,
    LeftOut,
    LeftOut,
    LeftOut,
    LeftOut,
    LeftOut,
    LeftOut,
    LeftOut,
    Alone(LoadN),
    Alone(LoadN),
    Alone(LoadN),
    Alone(LoadN),
    Alone(ArrayLoad),
    Alone(ArrayLoad),
    LeftOut,
    LeftOut,
    Alone(ArrayLoad),
    Alone(ArrayLoad),
    Alone(ArrayLoad),
    Alone(ArrayLoad),
    Local(Store),
    Local(Store),
    LeftOutLocal,
    LeftOutLocal,
    Local(Store),
    Alone(StoreN),
    Alone(StoreN),
    Alone(StoreN),
    Alone(StoreN),
    Alone(StoreN),
    Alone(StoreN),
    Alone(StoreN),
    Alone(StoreN),
    LeftOut,
    LeftOut,
    LeftOut,
    LeftOut,
    LeftOut,
    LeftOut,
    LeftOut,
    LeftOut,
    Alone(StoreN),
    Alone(StoreN),
    Alone(StoreN),
    Alone(StoreN),
    Alone(ArrayStore),
    Alone(ArrayStore),
    LeftOut,
    LeftOut,
    Alone(ArrayStore),
    Alone(ArrayStore),
    Alone(ArrayStore),
    Alone(ArrayStore),
    Alone(Pop),
    Alone(Pop),
    Alone(Dup),
    Alone(Dup),
    Alone(Dup),
    Alone(Dup),
    Alone(Dup),
    Alone(Dup),
    Alone(Swap),
    Alone(Arith),
    Alone(Arith),
    LeftOut,
    LeftOut,
    Alone(Arith),
    Alone(Arith),
    LeftOut,
    LeftOut,
    Alone(Arith),
    Alone(Arith),
    LeftOut,
    LeftOut,
    Alone(Divide),
    Alone(Divide),
    LeftOut,
    LeftOut,
    Alone(Divide),
    Alone(Divide),
    LeftOut,
    LeftOut,
    Alone(Negate),
    Alone(Negate),
    LeftOut,
    LeftOut,
    Alone(Shift),
    Alone(Shift),
    Alone(Shift),
    Alone(Shift),
    Alone(Shift),
    Alone(Shift),
    Alone(Bits),
    Alone(Bits),
    Alone(Bits),
    Alone(Bits),
    Alone(Bits),
    Alone(Bits),
    LocalAndByte,
    Alone(Resize),
    LeftOut,
    LeftOut,
    Alone(Resize),
    LeftOut,
    LeftOut,
    LeftOut,
    LeftOut,
    LeftOut,
    LeftOut,
    LeftOut,
    LeftOut,
    Alone(Resize),
    Alone(Resize),
    Alone(Resize),
    Alone(Lcmp),
    LeftOut,
    LeftOut,
    LeftOut,
    LeftOut,
    Near(IfZero),
    Near(IfZero),
    Near(IfZero),
    Near(IfZero),
    Near(IfZero),
    Near(IfZero),
    Near(IfInts),
    Near(IfInts),
    Near(IfInts),
    Near(IfInts),
    Near(IfInts),
    Near(IfInts),
    Near(IfRefs),
    Near(IfRefs),
    Near(Goto),
    LeftOut,
    LeftOutLocal,
    TableSwitch,
    LookupSwitch,
    Alone(Return),
    Alone(Return),
    LeftOut,
    LeftOut,
    Alone(Return),
    Alone(Return),
    OnField(Static),
    OnField(Static),
    OnField(Field),
    OnField(Field),
    OnMethod,
    OnMethod,
    OnMethod,
    OnInterface,
    Unknown,
    OnClass(New),
    ElementKind,
    ElementClass,
    Alone(ArrayLength),
    Alone(Athrow),
    OnClass(Cast),
    OnClass(Cast),
    Alone(Monitor),
    Alone(Monitor),
    Wide,
    Dimensions,
    Near(IfNull),
    Near(IfNull),
    Far,
    LeftOut,
];

/// The kind at a place; there is no instruction past the end.
fn kind_in(kinds: &[Kind], op: u8) -> Kind
    ensures { result ≡ unwrap_or (slice_get kinds.now op) NoKind }
{
    kinds.get(op as usize).copied().unwrap_or(Unknown)
}

/// The kind of an opcode's instruction.
pub(crate) fn kind_at(op: u8) -> Kind
    ensures { form_of result op ≡ form_at op }
{
    kind_in(&KINDS, op)
}

/// How many bytes stand behind the opcode, where it alone tells that.
pub(crate) fn size(kind: Kind, op: u8) -> u8
    ensures { result ≡ size (form_of kind op) }
{
    match kind {
        Byte | Local(_) | Constant | ElementKind => 1,
        Short | LocalAndByte | Near(_) | ConstantW | Constant2W => 2,
        OnField(_) | OnMethod | OnClass(_) | ElementClass => 2,
        Dimensions => 3,
        Far | OnInterface => 4,
        _ => 0,
    }
}

/// The rows of the table stand by rising opcodes, so that no two are of one.
pub fn one_row()
    ensures { IsOrdered }
{}
