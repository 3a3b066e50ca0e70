//! The boot classes' native methods, by their numbers.

ghost use Rattle.std.specs.Prelude.{◌≡◌, option_map};
ghost use Rattle.machine_state.specs.Intrinsics.{intrinsic_of};
ghost use Rattle.step_plan.specs.Texts.{seen};

/// How an argument is shown as a text: an int or long in decimal, a char, a boolean, or a String.
#[derive(Clone, Copy)]
pub(crate) enum Shown {
    Number,
    Letter,
    Truth,
    Words,
}

/// Native methods that look at an object alone.
#[derive(Clone, Copy)]
pub(crate) enum OnObject {
    Wait,
    Notify,
    NotifyAll,
    Length,
    NewBuffer,
    BufferText,
    BufferLength,
    PrintEnd,
    Start,
    Join,
}

/// Those that look at an object and an argument.
#[derive(Clone, Copy)]
pub(crate) enum OnArgument {
    CharAt,
    SameText,
    Concat,
    BufferOf,
    Append(Shown),
    Print(Shown),
    PrintLine(Shown),
}

/// Native methods of Object, String, StringBuffer, PrintStream and Thread.
#[derive(Clone, Copy)]
pub(crate) enum Intrinsic {
    ValueOf,
    CurrentThread,
    Sleep,
    Yield,
    OnObject(OnObject),
    OnArgument(OnArgument),
}

/// Each at its number.
const INTRINSICS: [Intrinsic; 34] = [
    Intrinsic::OnObject(OnObject::Wait),
    Intrinsic::OnObject(OnObject::Notify),
    Intrinsic::OnObject(OnObject::NotifyAll),
    Intrinsic::OnObject(OnObject::Length),
    Intrinsic::OnArgument(OnArgument::CharAt),
    Intrinsic::OnArgument(OnArgument::SameText),
    Intrinsic::OnArgument(OnArgument::Concat),
    Intrinsic::ValueOf,
    Intrinsic::ValueOf,
    Intrinsic::OnObject(OnObject::NewBuffer),
    Intrinsic::OnArgument(OnArgument::BufferOf),
    Intrinsic::OnArgument(OnArgument::Append(Shown::Number)),
    Intrinsic::OnArgument(OnArgument::Append(Shown::Number)),
    Intrinsic::OnArgument(OnArgument::Append(Shown::Letter)),
    Intrinsic::OnArgument(OnArgument::Append(Shown::Truth)),
    Intrinsic::OnArgument(OnArgument::Append(Shown::Words)),
    Intrinsic::OnObject(OnObject::BufferText),
    Intrinsic::OnObject(OnObject::BufferLength),
    Intrinsic::OnArgument(OnArgument::Print(Shown::Number)),
    Intrinsic::OnArgument(OnArgument::Print(Shown::Number)),
    Intrinsic::OnArgument(OnArgument::Print(Shown::Letter)),
    Intrinsic::OnArgument(OnArgument::Print(Shown::Truth)),
    Intrinsic::OnArgument(OnArgument::Print(Shown::Words)),
    Intrinsic::OnArgument(OnArgument::PrintLine(Shown::Number)),
    Intrinsic::OnArgument(OnArgument::PrintLine(Shown::Number)),
    Intrinsic::OnArgument(OnArgument::PrintLine(Shown::Letter)),
    Intrinsic::OnArgument(OnArgument::PrintLine(Shown::Truth)),
    Intrinsic::OnArgument(OnArgument::PrintLine(Shown::Words)),
    Intrinsic::OnObject(OnObject::PrintEnd),
    Intrinsic::OnObject(OnObject::Start),
    Intrinsic::OnObject(OnObject::Join),
    Intrinsic::CurrentThread,
    Intrinsic::Sleep,
    Intrinsic::Yield,
];

/// The intrinsic of a number.
pub(crate) fn intrinsic_of(number: u8) -> Option<Intrinsic>
    ensures { option_map seen result ≡ intrinsic_of number }
{
    let table = INTRINSICS.as_slice();
    if (number as usize) < table.len() {
        Some(table[number as usize])
    } else {
        None
    }
}
