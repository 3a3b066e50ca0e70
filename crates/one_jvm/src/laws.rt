//! Laws above the definitions.

ghost use Rattle.std.specs.Prelude.{◌≡◌, ℕ, List, Option, Some};
ghost use Rattle.cjvm_io.specs.Shelves.{Files};
ghost use Rattle.one_jvm.specs.declared.outcome.Refusal.{Refusal as Refused};
ghost use Rattle.one_jvm.specs.declared.outcome.Stop.{Stop as Stopped};
ghost use Rattle.one_jvm.specs.Outcomes.{status_of};
ghost use Rattle.one_jvm.specs.Replays.{EndsAs};
ghost use Rattle.one_jvm.specs.Verdicts.{HasReplay, IsVerdict};

use order_text::{one_fault, one_order};

/// Files and words have one verdict at most, and so one status; and a replay of theirs has one end.
pub fn verdict_is_one()
    ensures one { (fs : Files) (words : List (List ℕ)) (v w : Option Refused)
        → IsVerdict (Some fs) words v → IsVerdict (Some fs) words w → v ≡ w }
    ensures status { (fs : Files) (words : List (List ℕ)) (v w : Option Refused)
        → IsVerdict (Some fs) words v → IsVerdict (Some fs) words w → status_of v ≡ status_of w }
    ensures end { (fs : Files) (words : List (List ℕ)) (s u : Stopped)
        → HasReplay (EndsAs s) (Some fs) words → HasReplay (EndsAs u) (Some fs) words → s ≡ u }
{
    one_order();
    one_fault();
}
