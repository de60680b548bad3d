//! Laws of the machine: theorems on every run and every state.
//!
//! `machine` is the device as a state machine over complete images. A run has an event and a reply
//! for each of its steps (`specs/Steps.antt`). A reply is `Cut` if power failed during its event.

ghost use Rattle.std.specs.Prelude.{◌≡◌, ◌⊎◌, ◌+◌, ◌++◌, ℕ, Bool, true, List, Some, length, take, drop, slice_get};
ghost use Rattle.machine.specs.declared.event.Event.TheVariants as event;
ghost use Rattle.reports.specs.declared.table.Table.{Table};
ghost use Rattle.reports.specs.declared.report.Report.{Report};
ghost use Rattle.reports.specs.Rightness.{taken_in};
ghost use Rattle.machine.specs.Device.{DeviceState, Machine};
ghost use Rattle.machine.specs.Boots.{Boots, IsAllSound, IsReported, IsTableOf, is_answer};
ghost use Rattle.machine.specs.Headline.{AreCut, HasFinished, IsBootedAt, StartsGreatest};
ghost use Rattle.machine.specs.Intake.{Setup};
ghost use Rattle.machine.specs.Steps.{DeviceEvent, IsRun, IsStep, IsUncutRun, cuts_in};
ghost use Rattle.machine.specs.declared.reply.Reply.{Reply};
ghost use Rattle.machine.specs.declared.reply.Reply.TheVariants.{Booted};

/// In every run, even with power cuts, each boot that returns a report starts the greatest set.
///
/// A combination takes some of the pending requests. In a valid one all dependencies and groups are
/// met. Each taken image is intact, is no older than the one that runs, and its security counter
/// isn't below the floor. The greatest set is the valid combination that contains all valid ones. A
/// boot that replies `Booted` takes the greatest set of the images that run and are requested when
/// it boots. After it the taken images run, and all other images run on. Its report has a reason
/// for each refused request, and the reason holds at its place.
///
/// The function does nothing: its contract is the theorem.
#[tactic(auto, using(crate::proofs::Answered::booted_at))]
pub fn each_boot_that_answers_starts_the_greatest_set()
    ensures { (setup : Setup) (m : Machine) (events : List DeviceEvent) (replies : List Reply)
        (last : Machine) (place : ℕ) (table : Table) (report : Report) (permanent : Bool)
        → IsRun setup m events replies last
        → slice_get replies place ≡ Some (Booted table report permanent)
        → IsBootedAt setup m events replies last place table report permanent }
{}

/// Power cuts during boots don't change which set is started, unless a boot had finished its work.
///
/// Any number of boots are interrupted by power cuts, one after the other, and the next boot
/// replies `Booted`. That boot starts the greatest set of the images that ran and were requested
/// before the first of them. There is one exception: an interrupted boot had already finished its
/// work, so that the device had the state after a complete boot. The finished work was to take an
/// image, to revert a trial, or to begin another boot of a trial. An interrupted boot without such
/// work is no exception.
///
/// The function does nothing: its contract is the theorem.
pub fn boots_that_were_cut_start_the_same_set()
    ensures { (setup : Setup) (times : ℕ) (m mid last : Machine) (table : Table)
        (report : Report) (permanent : Bool) → AreCut setup m times mid
        → IsStep setup mid event.Boot (Booted table report permanent) last
        → StartsGreatest setup.boots m.kept table report permanent last.kept
        ⊎ HasFinished setup m mid times }
{}

/// Running images stay intact and valid in every run, even with power cuts.
///
/// The running images of the first state have to be intact, with all dependencies and groups met.
/// During a trial the same has to hold for the images that ran before it. Then both hold in the
/// state after the run. They hold after each step too, since a prefix of a run is a run.
///
/// The function does nothing: its contract is the theorem.
#[tactic(auto, using(crate::proofs::SoundRuns::run_sound))]
pub fn runs_keep_what_runs_intact_and_valid()
    ensures { (setup : Setup) (m last : Machine) (events : List DeviceEvent) (replies : List Reply)
        → IsRun setup m events replies last → IsAllSound m.kept → IsAllSound last.kept }
{}

/// A boot from an intact and valid state isn't refused, if no power cut interrupts it.
///
/// The running images have to be intact, with all dependencies and groups met. During a trial the
/// same has to hold for the images that ran before it. Then a complete boot replies `Booted`,
/// `Reverted` or `TrialAgain`.
///
/// The function does nothing: its contract is the theorem.
pub fn boots_from_an_intact_and_valid_state_answer()
    ensures { (boots : ℕ) (s next : DeviceState) (reply : Reply)
        → IsAllSound s → Boots boots s reply next → is_answer reply ≡ true }
{}

/// A state has only one table: two boots from the same state read the same table.
///
/// The function does nothing: its contract is the law.
pub fn tables_of_a_state_are_equal()
    ensures { (s : DeviceState) (first second : Table)
        → IsTableOf s first → IsTableOf s second → first ≡ second }
{}

/// All reports of a state take the same set of images.
///
/// So a boot that repeats an interrupted one from the same state takes the same set.
///
/// The function does nothing: its contract is the law.
pub fn reports_of_a_state_take_the_same_set()
    ensures { (s : DeviceState) (first second : Table) (report other : Report)
        → IsReported s first report → IsReported s second other
        → (j : ℕ) → taken_in report j ≡ taken_in other j }
{}

/// A run and a run that begins in its last state are together one run.
///
/// The function does nothing: its contract is the law.
#[tactic(auto, using(crate::proofs::Runs::run_joins))]
pub fn runs_are_joined()
    ensures { (setup : Setup) (m mid last : Machine) (events more : List DeviceEvent)
        (replies answered : List Reply)
        → IsRun setup m events replies mid → IsRun setup mid more answered last
        → IsRun setup m (events ++ more) (replies ++ answered) last }
{}

/// A run over two lists of events is a run over the first list, and then one over the second.
///
/// The second run begins in the last state of the first.
///
/// The function does nothing: its contract is the law.
#[tactic(auto, using(crate::proofs::Runs::run_splits))]
pub fn runs_are_parted()
    ensures { (setup : Setup) (m last : Machine) (events more : List DeviceEvent) (all : List Reply)
        → IsRun setup m (events ++ more) all last
        → (replies answered : List Reply) × (mid : Machine) × (all ≡ replies ++ answered)
        × IsRun setup m events replies mid × IsRun setup mid more answered last }
{}

/// A run has a state after any number of its events.
///
/// The first events are a run to that state, and the remaining events are a run from it.
///
/// The function does nothing: its contract is the law.
#[tactic(auto, using(crate::proofs::Runs::run_prefix))]
pub fn runs_have_a_state_at_each_place()
    ensures { (setup : Setup) (m last : Machine) (events : List DeviceEvent) (replies : List Reply)
        (place : ℕ) → IsRun setup m events replies last
        → (mid : Machine) × IsRun setup m (take place events) (take place replies) mid
        × IsRun setup mid (drop place events) (drop place replies) last }
{}

/// A run has exactly one reply for each event: the lists have the same length.
///
/// The function does nothing: its contract is the law.
#[tactic(auto, using(crate::proofs::Runs::run_answers))]
pub fn each_event_has_a_reply()
    ensures { (setup : Setup) (m last : Machine) (events : List DeviceEvent) (replies : List Reply)
        → IsRun setup m events replies last → length replies ≡ length events }
{}

/// A run without a `Cut` reply consists of complete steps only, and a run of complete steps has no
/// `Cut` reply.
///
/// The function does nothing: its contract is the law.
#[tactic(auto, using(crate::proofs::Runs::uncut_run, crate::proofs::Runs::complete_run))]
pub fn runs_without_a_cut_are_complete()
    ensures complete { (setup : Setup) (m last : Machine) (events : List DeviceEvent)
        (replies : List Reply)
        → IsRun setup m events replies last → cuts_in replies ≡ 0
        → IsUncutRun setup m events replies last }
    ensures uncut { (setup : Setup) (m last : Machine) (events : List DeviceEvent)
        (replies : List Reply)
        → IsUncutRun setup m events replies last
        → IsRun setup m events replies last × (cuts_in replies ≡ 0) }
{}
