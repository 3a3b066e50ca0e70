//! What a method of a file has as its body.

ghost use Rattle.std.specs.Prelude.{◌≡◌, []};
ghost use Rattle.jvm_base.specs.Words.{from};
ghost use Rattle.class_names.specs.Classes.{table_of};

use class_format::MethodItem;
use code_table::{Code, Placed};
use jvm_base::TableItem;

/// The instructions of some code; none where there is none.
pub fn ops(code: &Option<Code>) -> &[Placed]
    ensures { result.now ≡ from [] (λ c. c.ops) code.now }
{
    match code {
        Some(code) => code.ops.as_slice(),
        None => &[],
    }
}

/// The exception table of a method.
pub fn table(method: &MethodItem) -> &[TableItem]
    ensures { result.now ≡ table_of method.now }
{
    match &method.code {
        Some(code) => code.table.as_slice(),
        None => &[],
    }
}
