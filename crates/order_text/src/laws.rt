//! What holds of texts of orders.

ghost use Rattle.std.specs.Prelude.{◌≡◌, List as Items, ℕ, Ok as OkOf};
ghost use Rattle.std.specs.List.{AllByRecursion};
ghost use Rattle.jvm_base.specs.Told.{Gives, itself};
ghost use Rattle.order_text.specs.Spelling.{HasClass, IsOrderText};
ghost use Rattle.order_text.specs.Faults.{IsFirstFault};
ghost use Rattle.order_text.specs.Told.{told};

use crate::error::OrderErr;
use crate::read::read_order;
use crate::write::write_order;
use machine_state::{Choice, Order};
use std::alloc::Global;

/// No two orders have one text.
pub fn one_order()
    ensures { (text : Items ℕ) (a b : Items Choice) → IsOrderText text a → IsOrderText text b
        → a ≡ b }
{}

/// No two lines of a text are its first fault.
pub fn one_fault()
    ensures { (text : Items ℕ) (a b : ℕ) → IsFirstFault text a → IsFirstFault text b → a ≡ b }
{}

/// Writes an order and reads it again. It is the same one, unless memory runs out.
pub fn read_again(alloc: Global, order: &Order) -> Result<Order, OrderErr>
    requires { AllByRecursion HasClass order.now }
    ensures { Gives told itself result (OkOf order.now) }
{
    let text = write_order(alloc, order)?;
    read_order(alloc, text.as_slice())
}
