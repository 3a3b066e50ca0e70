//! Native methods that make texts of their arguments, append them and print them.

ghost use Rattle.std.specs.Prelude.{◌≡◌, ◌++◌, Some, IfOk};
ghost use Rattle.jvm_base.specs.declared.frame.Frame.{Frame as Called};
ghost use Rattle.program_image.specs.Program.{Program as Linked};
ghost use Rattle.machine_state.specs.declared.request.Request.TheVariants.{Buffer, Print};
ghost use Rattle.machine_state.specs.IntrinsicCalls.{filled, line_end, with_shown};
ghost use Rattle.machine_state.specs.Next.{Needs};
ghost use Rattle.step_plan.specs.Depth.{who_at};
ghost use Rattle.step_plan.specs.Shown.{shown_next};
ghost use Rattle.step_plan.specs.Texts.{seen_shown};
ghost use Rattle.step_plan.specs.Ways.{IsNoMove};

use crate::intrinsic::Shown;
use crate::plan::{Next, fault};
use crate::site::Site;
use crate::texts::{Text, known_text, shown_text};
use crate::who::Texts;
use jvm_base::{Name, NoMemory, Value};
use machine_state::Request;
use program_reads::boot;
use std::alloc::Global;

/// A buffer with the text of a String.
#[tactic(auto, using(crate::proofs::TextLaws::with_text_is))]
pub(crate) fn filled<T: Texts>(
    alloc: Global,
    site: &Site<'_>,
    texts: &T,
    number: u8,
    object: Name,
    value: Value,
) -> Result<Next, NoMemory>
    ensures next { IfOk result
        (λ r. (p : Linked) (f : Called) → shown_next p (Some f) r
        ≡ filled (who_at site.now (T.known texts.now)) number object value) }
    ensures still { IfOk result (λ r. IsNoMove r) }
{
    let Value::Ref(string) = value else {
        return Ok(fault(boot::NULL_POINTER));
    };
    match known_text(alloc, texts, string)? {
        Text::Known(units) => Ok(Next::Needs(Request::Buffer(object, number, units))),
        Text::Wanted(string) => Ok(Next::Wants(string)),
    }
}

/// A text is put behind a buffer.
#[tactic(auto, using(crate::proofs::TextLaws::with_shown_is))]
pub(crate) fn append<T: Texts>(
    alloc: Global,
    site: &Site<'_>,
    texts: &T,
    number: u8,
    shown: Shown,
    object: Name,
    value: Value,
) -> Result<Next, NoMemory>
    ensures next { IfOk result
        (λ r. (p : Linked) (f : Called) → shown_next p (Some f) r
        ≡ with_shown (who_at site.now (T.known texts.now)) (seen_shown shown) value
        (λ us. Needs (Buffer object number us))) }
    ensures still { IfOk result (λ r. IsNoMove r) }
{
    match shown_text(alloc, texts, shown, value)? {
        Text::Known(units) => Ok(Next::Needs(Request::Buffer(object, number, units))),
        Text::Wanted(string) => Ok(Next::Wants(string)),
    }
}

/// A text is printed.
#[tactic(auto, using(crate::proofs::TextLaws::with_shown_is))]
pub(crate) fn print<T: Texts>(
    alloc: Global,
    site: &Site<'_>,
    texts: &T,
    shown: Shown,
    value: Value,
) -> Result<Next, NoMemory>
    ensures next { IfOk result
        (λ r. (p : Linked) (f : Called) → shown_next p (Some f) r
        ≡ with_shown (who_at site.now (T.known texts.now)) (seen_shown shown) value
        (λ us. Needs (Print us))) }
    ensures still { IfOk result (λ r. IsNoMove r) }
{
    match shown_text(alloc, texts, shown, value)? {
        Text::Known(units) => Ok(Next::Needs(Request::Print(units))),
        Text::Wanted(string) => Ok(Next::Wants(string)),
    }
}

/// A text is printed, and a line's end behind it.
#[tactic(auto, using(crate::proofs::TextLaws::with_shown_is))]
pub(crate) fn print_line<T: Texts>(
    alloc: Global,
    site: &Site<'_>,
    texts: &T,
    shown: Shown,
    value: Value,
) -> Result<Next, NoMemory>
    ensures next { IfOk result
        (λ r. (p : Linked) (f : Called) → shown_next p (Some f) r
        ≡ with_shown (who_at site.now (T.known texts.now)) (seen_shown shown) value
        (λ us. Needs (Print (us ++ line_end)))) }
    ensures still { IfOk result (λ r. IsNoMove r) }
{
    match shown_text(alloc, texts, shown, value)? {
        Text::Known(mut units) => {
            units.push(u16::from(b'\n'))?;
            Ok(Next::Needs(Request::Print(units)))
        }
        Text::Wanted(string) => Ok(Next::Wants(string)),
    }
}
