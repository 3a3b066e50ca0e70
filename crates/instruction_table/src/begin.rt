//! Initialising: each copy of an uninitialised type made an initialised one.

ghost use Rattle.std.specs.Prelude.{◌≡◌, OnOk, OnErr};
ghost use Rattle.instruction_table.specs.Working.{begun};

use crate::need::is_uninitialised;
use flow_types::FlowType;
use jvm_base::NoMemory;
use shared_types::Types;
use std::alloc::Global;

/// Makes each copy of an uninitialised type another type.
#[tactic(auto, using(crate::proofs::Beginning::none_begun, crate::proofs::Beginning::all_begun, crate::proofs::Beginning::never_unusable))]
pub(crate) fn begin_all(
    alloc: Global,
    list: &mut Types,
    was: FlowType,
    now: FlowType,
) -> Result<(), NoMemory>
    ensures ok { OnOk result (list.new ≡ begun was now list.old) }
    ensures err { OnErr result (list.new ≡ list.old) }
{
    if is_uninitialised(&was) {
        list.replace(alloc, was, now)?;
    }
    Ok(())
}
