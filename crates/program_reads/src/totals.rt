//! Subclasses, selection and handlers for every number of a class, also for one that no class has.

ghost use Rattle.std.specs.Prelude.{◌≡◌, ◌<◌, ◌≤◌, length};
ghost use Rattle.program_image.specs.Handlers.{handler_of};
ghost use Rattle.program_image.specs.Selection.{select_of};
ghost use Rattle.program_image.specs.Subclass.{is_sub_of};
ghost use Rattle.program_reads.specs.Past.{any_handler};
ghost use Rattle.program_reads.specs.Whole.{IsWhole};

use crate::lookups::code_of;
use instruction_table::owner_of;
use jvm_base::TableItem;
use program_image::{Image, Selected};

/// Whether the class `low` is `high` or below it.
#[tactic(auto, using(crate::proofs::PastLaws::sub_past))]
pub fn is_sub(image: &Image, low: u32, high: u32) -> bool
    requires { high < length image.now.classes }
    ensures { result ≡ is_sub_of image.now.classes low high }
{
    low < image.classes() && image.is_sub(low, high)
}

/// What a call of a method runs on a receiver of the class; `interface` says that it is called as an
/// interface's.
#[tactic(auto, using(crate::proofs::PastLaws::select_past))]
pub fn select(image: &Image, class: u32, method: u32, interface: bool) -> Selected
    requires { method < length image.now.methods }
    ensures { result ≡ select_of image.now.classes image.now.methods class method interface }
{
    if class < image.classes() {
        return image.select(class, method, interface);
    }
    if interface && class != owner_of(image, method) {
        Selected::NoInterface
    } else {
        Selected::NoBody
    }
}

/// The handler of the first entry that takes every exception at an address.
fn any_handler(at: u32, table: &[TableItem]) -> Option<u32>
    ensures { result ≡ any_handler at table.now }
{
    for entry in table {
        if u32::from(entry.start) <= at && at < u32::from(entry.end) && entry.class == 0 {
            return Some(u32::from(entry.handler));
        }
    }
    None
}

/// The address of the handler of an exception of the class that is raised at an address of a method.
#[tactic(auto, using(crate::proofs::PastLaws::handler_past))]
pub fn handler(image: &Image, method: u32, at: u32, class: u32) -> Option<u32>
    requires { IsWhole image.now }
    ensures { result ≡ handler_of image.now method at class }
{
    let code = code_of(image, method)?;
    if class < image.classes() {
        image.handler(method, at, class)
    } else {
        any_handler(at, code.table.as_slice())
    }
}
