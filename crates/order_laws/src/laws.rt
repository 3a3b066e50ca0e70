//! What holds of every order of a run, as laws.

ghost use Rattle.order_laws.specs.Naming.{NamesLaw, HaveTextsLaw};
ghost use Rattle.order_laws.specs.Starting.{OneThreadLaw};

/// What a choice names is of a class of the program, where it names anything.
pub fn names_are_of_classes()
    ensures { NamesLaw }
{}

/// So the order of a run can be written as text, unless there are more classes than numbers of
/// classes in text.
pub fn orders_have_text()
    ensures { HaveTextsLaw }
{}

/// No two threads of a run are of one Thread object.
pub fn one_thread_an_object()
    ensures { OneThreadLaw }
{}
