//! The top call.

ghost use Rattle.std.specs.Prelude.{◌≡◌, ◌≢◌, ◌≤◌, ◌↔◌, ◌⊎◌, ◌++◌, ℕ, List, [], Option, Some, None, true, false, IfOk};
ghost use Rattle.std.specs.Result.{IsOk};
ghost use Rattle.std.specs.List.{AllByRecursion};
ghost use Rattle.cjvm_io.specs.Faults.{HasCause, Rose};
ghost use Rattle.cjvm_io.specs.Shelves.{Files};
ghost use Rattle.cjvm_io.specs.Sinks.{GainsAll, shown};
ghost use Rattle.command_words.specs.declared.words.Command.TheVariants.{Run, Replay};
ghost use Rattle.order_text.specs.Spelling.{HasClass, order_text};
ghost use Rattle.one_jvm.specs.Words.{Asked, IsCall, IsNoCall, IsRun, IsCheck, IsReplay, ShowsOrder, texts};
ghost use Rattle.one_jvm.specs.Verdicts.{LacksFile, HasLongFile, IsRefusedCall, HasBadOrder, HasCheckedFiles, HasReplay, IsProgram, IsReplayed, IsDoneCall};
ghost use Rattle.one_jvm.specs.Replays.{IsEarly};
ghost use Rattle.one_jvm.specs.Outcomes.{report, outcome_status};
ghost use Rattle.one_jvm.specs.Answers.{Ran, IsAccepted, Says, IsUnwritten, ComesFirst, the_faults, refusal_of, OneOf, ends, broken, Exactly, Answers, AnswersOneOf, EndsRun, EndsReplay, IsStatus, IsClosed, IsShownText, Reports};
ghost use Rattle.one_jvm.specs.Steps.Loading.{AreFound, replay_of};
ghost use Rattle.one_jvm.specs.Steps.Parts.{asked_by};
ghost use Rattle.one_jvm.specs.Steps.RunSteps.{listing_made, refusal_after, text_made};
ghost use Rattle.one_jvm.specs.Steps.Speaking.{Judged, NamesRefused, Speaks};
ghost use Rattle.one_machine.specs.Ready.{CanRun};
ghost use Rattle.written_orders.specs.Written.{HaveTexts};

use crate::laws::verdict_is_one;
use crate::loading::{Task, find_task};
use crate::outcome::{Outcome, Refusal, Stop, outcome_status};
use crate::replaying::{ReplayEnd, replay};
use crate::report::write_refusal;
use crate::running::{RunEnd, run_program};
use crate::words::{Request, name_of, read_words};
use cjvm_io::{Failed, Shelf, Sink, write_all};
use jvm_base::{List, NoMemory};
use machine_state::Order;
use order_text::write_order;
use program_image::Image;
use runnable_programs::accepted_can_run;
use std::alloc::Global;
use written_orders::accepted_orders_have_text;

/// What a call answers, faults of standard error aside: the order and the stop of its run; the end
/// whose status it has, of its run or its replay; what its refusal tells of class files, or that end;
/// the text of the order that it shows; and the name of the file that it refuses.
#[derive(Drop)]
struct Verdict<'a> {
    order: Order,
    stop: Option<Stop>,
    end: Option<Stop>,
    refusal: Option<Refusal>,
    text: Vec<u8>,
    listing: List<u8>,
    name: &'a str,
}

/// The refusal of a call whose run ended so.
fn refusal_of(stop: Stop) -> Option<Refusal>
    ensures { result ≡ refusal_of stop }
{
    match stop {
        Stop::WriteFault => Some(Refusal::WriteFault),
        Stop::NoMemory => Some(Refusal::NoMemory),
        Stop::Done
        | Stop::Uncaught
        | Stop::StepLimit { .. }
        | Stop::Deadlock
        | Stop::ThreadsFull { .. } => None,
    }
}

/// The same where memory may have run out for what is told of the run.
fn refusal_after(
    stop: Stop,
    text: &Result<Vec<u8>, NoMemory>,
    listing: &Result<List<u8>, NoMemory>,
) -> Option<Refusal>
    ensures { result ≡ refusal_after stop text.now listing.now }
{
    match (text, listing) {
        (Ok(_), Ok(_)) => refusal_of(stop),
        _ => Some(Refusal::NoMemory),
    }
}

/// The verdict of a call that begins no run.
fn without_run<'a>(
    alloc: Global,
    end: Option<Stop>,
    refusal: Option<Refusal>,
    text: Vec<u8>,
    name: &'a str,
) -> Verdict<'a>
    ensures no_run { (result.stop ≡ None) × (result.order ≡ []) × (result.listing ≡ []) }
    ensures end { result.end ≡ end }
    ensures refused { result.refusal ≡ refusal }
    ensures told { result.text.items ≡ text.items }
    ensures named { result.name.now ≡ name.entry.now }
{
    Verdict {
        order: Order::new(alloc),
        stop: None,
        end,
        refusal,
        text,
        listing: List::new(alloc),
        name,
    }
}

/// The text of an order, where the words ask to show it.
fn order_listing(alloc: Global, request: &Request<'_>, order: &Order) -> Result<List<u8>, NoMemory>
    requires { AllByRecursion HasClass order.now }
    ensures text { IfOk result (IsShownText (asked_by request.now).shows order.now None) }
    ensures unasked { (asked_by request.now).shows ≡ false → IsOk result }
{
    if request.shows() {
        write_order(alloc, order)
    } else {
        Ok(List::new(alloc))
    }
}

/// A text that was made, or none.
fn text_or_none(alloc: Global, text: Result<Vec<u8>, NoMemory>) -> Vec<u8>
    ensures { result.items ≡ text_made text }
{
    match text {
        Ok(text) => text,
        Err(_) => Vec::new(alloc),
    }
}

/// A text of an order that was made, or none.
fn listing_or_none(alloc: Global, listing: Result<List<u8>, NoMemory>) -> List<u8>
    ensures { result ≡ listing_made listing }
{
    match listing {
        Ok(listing) => listing,
        Err(_) => List::new(alloc),
    }
}

/// Runs a program as it is asked.
fn run<O: Sink>(
    alloc: Global,
    image: &Image,
    request: &Request<'_>,
    out: &mut O,
) -> Verdict<'static>
    requires can_run { CanRun image.now }
    requires written { HaveTexts image.now }
    ensures judged { (words : List (List ℕ)) (told : Option Files) (before now : ℕ)
        → IsCall words (asked_by request.now)
        → AreFound told (asked_by request.now).files (IsProgram Run image.now (asked_by request.now))
        → Judged words told (the_faults before now (O.faults out.old) (O.faults out.new))
        (shown O.held O.faults out.old) (shown O.held O.faults out.new) result }
    ensures began { result.stop ≢ None }
    ensures later { O.faults out.old ≤ O.faults out.new }
{
    let RunEnd { order, stop, text } = run_program(alloc, image, request, out);
    let listing = order_listing(alloc, request, &order);
    let refusal = refusal_after(stop, &text, &listing);
    Verdict {
        order,
        stop: Some(stop),
        end: Some(stop),
        refusal,
        text: text_or_none(alloc, text),
        listing: listing_or_none(alloc, listing),
        name: "",
    }
}

/// Takes an order again, of which this is the text.
fn retake<O: Sink>(
    alloc: Global,
    image: &Image,
    request: &Request<'_>,
    text: &[u8],
    out: &mut O,
) -> Verdict<'static>
    requires can_run { CanRun image.now }
    ensures judged { (words : List (List ℕ)) (told : Option Files) (before now : ℕ)
        → IsCall words (asked_by request.now)
        → AreFound told (asked_by request.now).files
        (IsReplayed (replay_of image.now (asked_by request.now) text.now) (asked_by request.now))
        → Judged words told (the_faults before now (O.faults out.old) (O.faults out.new))
        (shown O.held O.faults out.old) (shown O.held O.faults out.new) result }
    ensures unwritten { ComesFirst result.refusal → out.new ≡ out.old }
    ensures later { O.faults out.old ≤ O.faults out.new }
{
    let ReplayEnd { end, refusal, text } = replay(alloc, image, request, text, out);
    without_run(alloc, end, refusal, text, "")
}

/// Writes a line, and answers the refusal of a call for which that failed.
fn write_line<O: Sink>(line: &[u8], out: &mut O) -> Option<Refusal>
    ensures says { Says line.now (shown O.held O.faults out.old) (shown O.held O.faults out.new)
        result }
    ensures either { (result ≡ None) ⊎ (result ≡ Some Refusal.WriteFault) }
    ensures later { O.faults out.old ≤ O.faults out.new }
{
    match write_all(out, line) {
        Ok(()) => None,
        Err(Failed) => Some(Refusal::WriteFault),
    }
}

/// Says that the files are accepted, by this line.
fn say<O: Sink>(alloc: Global, line: &[u8], out: &mut O) -> Verdict<'static>
    ensures judged { (words : List (List ℕ)) (told : Option Files) (asked : Asked) (before now : ℕ)
        → IsCall words asked → AreFound told asked.files (IsAccepted line.now asked)
        → Judged words told (the_faults before now (O.faults out.old) (O.faults out.new))
        (shown O.held O.faults out.old) (shown O.held O.faults out.new) result }
    ensures written { (result.refusal ≡ None) ⊎ (result.refusal ≡ Some Refusal.WriteFault) }
    ensures later { O.faults out.old ≤ O.faults out.new }
{
    let refusal = write_line(line, out);
    without_run(alloc, None, refusal, Vec::new(alloc), "")
}

/// Reads the words and the files, and runs the program, takes an order again, or says that the files
/// are accepted.
fn judge<'a, S: Shelf, O: Sink>(
    alloc: Global,
    words: &'a [String],
    shelf: &mut S,
    out: &mut O,
) -> Verdict<'a>
    ensures judged { Judged (texts words.now) (S.files shelf.old)
        (the_faults (S.faults shelf.old) (S.faults shelf.new) (O.faults out.old) (O.faults out.new))
        (shown O.held O.faults out.old) (shown O.held O.faults out.new) result }
    ensures files { S.files shelf.new ≡ S.files shelf.old }
    ensures read_faults { S.faults shelf.old ≤ S.faults shelf.new }
    ensures out_faults { O.faults out.old ≤ O.faults out.new }
    ensures no_read { IsNoCall (texts words.now) → shelf.new ≡ shelf.old }
    ensures no_run { IsUnwritten (texts words.now) result.stop result.refusal → out.new ≡ out.old }
{
    let request = match read_words(alloc, words) {
        Ok(request) => request,
        Err(refusal) => return without_run(alloc, None, Some(refusal), Vec::new(alloc), ""),
    };
    match find_task(alloc, shelf, &request) {
        Ok(Task::Run(image)) => {
            accepted_can_run();
            accepted_orders_have_text();
            run(alloc, &image, &request, out)
        }
        Ok(Task::Replay(image, text)) => {
            accepted_can_run();
            retake(alloc, &image, &request, text.as_slice(), out)
        }
        Ok(Task::Tell(line)) => say(alloc, line.as_slice(), out),
        Err(why) => {
            let name = name_of(&request, &why.refusal);
            without_run(alloc, None, Some(why.refusal), why.text, name)
        }
    }
}

/// What a report speaks of: the name of the file that is refused, what the refusal tells of class
/// files, or what the end of the run or the replay tells.
fn subject_of<'a>(refusal: &Option<Refusal>, text: &'a [u8], name: &'a str) -> &'a [u8]
    ensures { (words : List (List ℕ)) → NamesRefused words refusal.now name.now
        → Speaks words refusal.now text.now result.now }
{
    match refusal {
        None | Some(Refusal::Link(_) | Refusal::Flow(_)) => text,
        Some(_) => name.as_bytes(),
    }
}

/// Writes bytes, if there are any.
fn write_some<E: Sink>(err: &mut E, bytes: &[u8]) -> Result<(), Failed>
    ensures bytes { GainsAll (E.held err.old) (E.held err.new) bytes.now result }
    ensures cause { HasCause (E.faults err.old) (E.faults err.new) result }
    ensures none { bytes.now ≡ [] → (err.new ≡ err.old) × IsOk result }
{
    if bytes.is_empty() {
        return Ok(());
    }
    write_all(err, bytes)
}

/// Writes the report of a refusal, or what the end of a run or a replay tells.
fn write_report<E: Sink>(
    err: &mut E,
    subject: &[u8],
    refusal: &Option<Refusal>,
) -> Result<(), Failed>
    ensures bytes { GainsAll (E.held err.old) (E.held err.new) (report subject.now refusal.now)
        result }
    ensures cause { HasCause (E.faults err.old) (E.faults err.new) result }
    ensures none { refusal.now ≡ None → subject.now ≡ [] → (err.new ≡ err.old) × IsOk result }
{
    match refusal {
        Some(refusal) => write_refusal(err, subject, refusal),
        None => write_some(err, subject),
    }
}

/// Writes a report, and then the text of the order that is shown.
fn write_all_told<E: Sink>(
    err: &mut E,
    subject: &[u8],
    refusal: &Option<Refusal>,
    listing: &[u8],
) -> Result<(), Failed>
    ensures bytes { GainsAll (E.held err.old) (E.held err.new)
        (report subject.now refusal.now ++ listing.now) result }
    ensures cause { HasCause (E.faults err.old) (E.faults err.new) result }
    ensures none { refusal.now ≡ None → subject.now ≡ [] → listing.now ≡ []
        → (err.new ≡ err.old) × IsOk result }
{
    write_report(err, subject, refusal)?;
    write_some(err, listing)
}

/// Reports a refusal, or what the end of a run or a replay tells, and shows an order. A fault of
/// standard error hides the refusal.
fn close<E: Sink>(
    err: &mut E,
    subject: &[u8],
    refusal: Option<Refusal>,
    listing: &[u8],
) -> Option<Refusal>
    ensures closed { IsClosed (report subject.now refusal ++ listing.now) refusal
        (shown E.held E.faults err.old) (shown E.held E.faults err.new) result }
    ensures err_faults { E.faults err.old ≤ E.faults err.new }
    ensures silent { refusal ≡ None → subject.now ≡ [] → listing.now ≡ []
        → (err.new ≡ err.old) × (result ≡ None) }
{
    match write_all_told(err, subject, &refusal, listing) {
        Ok(()) => refusal,
        Err(Failed) => Some(Refusal::WriteFault),
    }
}

/// Does what the words say.
///
/// `run [--main C] [--args A,B..] [--steps N] [--show order] FILE..` reads class files from the shelf
/// and runs their program; its output goes to `out` burst by burst. `check [--main C] FILE..` accepts or
/// refuses them in the same way, and says in `out` that they are accepted. `replay [--main C]
/// [--args A,B..] ORDER FILE..` reads the text of an order before them, and takes its steps one by one
/// as far as they are enabled; what they print goes to `out` in the same way. It begins no run.
///
/// At the end `err` gets a report of the refusal, or of exceptions that nothing caught and of a run or a
/// replay that ended before its threads did. Behind it `--show order` writes the text of the order of a
/// run that was begun. `err` is empty where the status is 0 and no order is shown.
///
/// `words` are those after the program's name. What a shelf or a sink holds is claimed only where it
/// tells it.
pub fn cjvm<S: Shelf, O: Sink, E: Sink>(
    alloc: Global,
    words: &[String],
    shelf: &mut S,
    out: &mut O,
    err: &mut E,
) -> Outcome
    ensures status { IsStatus (texts words.now) result.stop result.refusal result.status }
    ensures unrefused { (result.refusal ≡ None) ↔ OneOf ends result.status }

    // Each status comes exactly with its cause, faults and want of memory aside.
    ensures usage { Exactly result.status 2 broken (IsNoCall (texts words.now)) }
    ensures refused { Answers (S.files shelf.old) (texts words.now) result.status 3 IsRefusedCall }
    ensures no_file { Answers (S.files shelf.old) (texts words.now) result.status 4 LacksFile }
    ensures too_long { Answers (S.files shelf.old) (texts words.now) result.status 11 HasLongFile }
    ensures bad_order { Answers (S.files shelf.old) (texts words.now) result.status 12 HasBadOrder }
    ensures early { Answers (S.files shelf.old) (texts words.now) result.status 13
        (HasReplay IsEarly) }
    ensures ended { AnswersOneOf (S.files shelf.old) (texts words.now) result.status ends IsDoneCall }
    ensures checked { IsCheck (texts words.now)
        → Answers (S.files shelf.old) (texts words.now) result.status 0 HasCheckedFiles }
    ensures read_fault { result.status ≡ 5 → Rose (S.faults shelf.old) (S.faults shelf.new) }
    ensures write_fault { result.status ≡ 6 → Rose (O.faults out.old) (O.faults out.new)
        ⊎ Rose (E.faults err.old) (E.faults err.new) }

    // The order is a legal one of the files' program and whole, its end is that of the status, and
    // `out` gained its output; or no run was begun, and `out` gained the line of accepted files, the
    // output of a replay, or nothing.
    ensures done { IsRun (texts words.now)
        → Exactly result.status 0 broken (result.stop ≡ Some Stop.Done) }
    ensures quiet { ¬ ShowsOrder (texts words.now) → result.stop ≡ Some Stop.Done
        → result.status ≡ 0 }
    ensures not_run { ¬ IsRun (texts words.now) → result.stop ≡ None }
    ensures run { Ran (texts words.now) (S.files shelf.old) (shown O.held O.faults out.old)
        (shown O.held O.faults out.new) result.order result.stop result.refusal }
    ensures run_status { EndsRun (texts words.now) (S.files shelf.old) result.order result.stop
        result.status }
    ensures replayed { EndsReplay (texts words.now) (S.files shelf.old) result.status }

    // `err` gained the report of what was refused or of the end of the run or the replay, and then the
    // order that is to be shown, or a front of these where a write to it failed.
    ensures report { Reports (texts words.now) (S.files shelf.old)
        (the_faults (S.faults shelf.old) (S.faults shelf.new) (O.faults out.old) (O.faults out.new))
        (shown E.held E.faults err.old) (shown E.held E.faults err.new) result.order result.stop
        result.refusal }

    // The shelf holds what it held, no count falls, and what isn't used is left as it was.
    ensures files { S.files shelf.new ≡ S.files shelf.old }
    ensures read_faults { S.faults shelf.old ≤ S.faults shelf.new }
    ensures out_faults { O.faults out.old ≤ O.faults out.new }
    ensures err_faults { E.faults err.old ≤ E.faults err.new }
    ensures no_read { IsNoCall (texts words.now) → shelf.new ≡ shelf.old }
    ensures no_run { IsUnwritten (texts words.now) result.stop result.refusal → out.new ≡ out.old }
    ensures no_report { result.status ≡ 0 → ¬ ShowsOrder (texts words.now) → err.new ≡ err.old }
{
    verdict_is_one();
    let verdict = judge(alloc, words, shelf, out);
    let Verdict {
        order,
        stop,
        end,
        refusal,
        text,
        listing,
        name,
    } = verdict;
    let subject = subject_of(&refusal, text.as_slice(), name);
    let refusal = close(err, subject, refusal, listing.as_slice());
    Outcome {
        status: outcome_status(end, &refusal),
        order,
        stop,
        refusal,
    }
}

/// The answer where no memory was left for the words: nothing is read, and that is reported.
pub fn without_words<E: Sink>(alloc: Global, err: &mut E) -> Outcome
    ensures status { result.status ≡ outcome_status None result.refusal }
    ensures report { IsClosed (report [] (Some Refusal.NoMemory)) (Some Refusal.NoMemory)
        (shown E.held E.faults err.old) (shown E.held E.faults err.new) result.refusal }
    ensures no_run { (result.stop ≡ None) × (result.order ≡ []) }
    ensures err_faults { E.faults err.old ≤ E.faults err.new }
{
    let refusal = close(err, b"", Some(Refusal::NoMemory), b"");
    Outcome {
        status: outcome_status(None, &refusal),
        order: Order::new(alloc),
        stop: None,
        refusal,
    }
}
