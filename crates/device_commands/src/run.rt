//! `bootswap run`: runs the events of a script on a device, and writes its replies.
ghost use Rattle.host.specs.Doings.{IsOpenedFor};
ghost use Rattle.std.specs.Prelude.{◌≡◌, ◌⊎◌, ◌||◌, IfErr, IfOk, IsTrue, None, OnErr, OnOk, Some, is_some, length, true};
ghost use Rattle.flash_model.specs.Blanks.{IsBlankOf};
ghost use Rattle.device_texts.specs.DeviceFile.{IsOfFile};
ghost use Rattle.device_texts.specs.FlashOf.{IsFlashOf, armed_in};
ghost use Rattle.host.specs.Input.{is_standard_input};
ghost use Rattle.host.specs.ScriptLines.{script_line};
ghost use Rattle.inputs.specs.Loading.{came_of};
ghost use Rattle.inputs.specs.Script.{known_at};
ghost use Rattle.inputs.specs.ScriptFault.{IsFaultOfRun, IsLostLine, OnScriptLine};
ghost use Rattle.device_commands.specs.RunEnd.{AnswersRun, BlamesRun, BreaksRun, answer_after, ending, is_refusal};
ghost use Rattle.device_commands.specs.Telling.{BreaksEvent, BreaksText, PlaysRun, RunsFirstLines, RunsScript, TellsEvent, TellsText};
ghost use Rattle.host.specs.declared.source.Source.TheVariants as source;

use crate::host_file::HostFile;
use crate::replies::{write_no_map, write_notes, write_reply};
use boot_core::{Device, step};
use device_texts::{CutWrite, DeviceFile, Form, Line, NoteList, arm_all, flash_of};
use flash_model::Flash;
use host::{Access, Answer, Host, Refusal, Source};
use inputs::{
    CheckedScript, FileFlash, FlashFile, Lines, Notes, Sources, check_script, device_or_fault,
    read_flash, read_script,
};
use machine::{Event, Reply};
use std::alloc::Global;
use std::io;
use std::io::Write;
use std::marker::Brand;
use std::sync::ledger::{Blank, Ledger};

/// The files of a run, as its arguments name them.
#[derive(Clone, Copy)]
pub struct RunFiles<'a> {
    /// The device file.
    pub device: Source<'a>,
    /// The file of the device's flash.
    pub flash: &'a str,
    /// How the flash is opened: for one of the accesses that write.
    pub access: Access,
    /// The script.
    pub script: Source<'a>,
}

/// How a run is answered.
#[derive(Clone, Copy)]
pub struct RunOptions {
    /// Whether any reply that refuses something makes the answer `Refused`.
    pub is_strict: bool,
    /// The form of the replies.
    pub form: Form,
}

/// A device and the script to run on it, after all files were checked.
#[derive(Drop)]
struct Run<'d, 't> {
    /// The device.
    device: &'d DeviceFile,
    /// The bytes of its flash, as its file holds them.
    bytes: Vec<u8>,
    /// The writes that the script cuts.
    cuts: Vec<CutWrite>,
    /// The text of the script.
    text: &'t [u8],
    /// How it is answered.
    options: RunOptions,
}

/// What a reply means for the run.
#[derive(Clone, Copy)]
struct Told {
    /// The answer of the run if this is its last reply.
    answer: Answer,
    /// Whether the reply is a refusal, or the report of a boot that refuses a request.
    has_refused: bool,
}

/// Runs the events of a script on a device, and writes each reply to `out` when its event is done.
/// The device file, the flash and the script are read from `host`. Each change of the flash is
/// written to its file immediately. The device, the flash and each reply are handed to `notes`. If
/// the form is [`Form::Json`], an object of the notes on a reply follows the object of the reply.
///
/// The answer is that of the last reply. With `is_strict` it is `Refused` if any reply is a refusal,
/// or the report of a boot that refuses a request, unless the last reply is that the power failed.
///
/// All files are checked before the first event, and the file of the flash is locked from then on.
/// The file that a line names is read when its event comes. So memory of `alloc` holds only the
/// text of the script, the bytes of one event, and the inputs that can't be read twice.
///
/// The file of the flash is synced however the run ends, and a failed sync is the result of the
/// run. So `Done` means that all writes are on the medium. With [`Access::WriteDurably`] the file
/// and its name are on the medium before the first event.
pub fn run_device<H: Host, O: Write, N: Notes>(
    alloc: Global,
    files: RunFiles<'_>,
    options: RunOptions,
    host: &mut H,
    out: &mut O,
    notes: &mut N,
) -> Result<Answer, Refusal>
    ensures answers { IfOk result (λ answer. AnswersRun options.form options.is_strict answer
        files.entry.device (source.File files.entry.flash) files.entry.script (H.input host.old)
        (H.file host.old) (O.contents out.old) (O.contents out.new)) }
    ensures synced { IfOk result (λ answer. answer ≡ Answer.Done → IsTrue (H.synced host.new)) }
    ensures opened { IfOk result (λ answer. answer ≡ Answer.Done
        → IsOpenedFor files.entry.access (H.opened host.old) (H.opened host.new)) }
    ensures begun { OnErr result (BreaksRun options.form files.entry.device
        (source.File files.entry.flash) files.entry.script (H.input host.old) (H.file host.old)
        (O.contents out.old) (O.contents out.new)) }
    ensures wrong { IfErr result (BlamesRun files.entry.device (source.File files.entry.flash)
        files.entry.script (H.input host.old) (H.file host.old)) }
{
    let is_input_read = is_input_read(files);
    let device = match device_or_fault(alloc, files.device, host)? {
        Ok(device) => device,
        Err(bad) => {
            notes.bad_map(&bad);
            return write_no_map(alloc, options.form, bad.fault, out);
        }
    };
    let flash = Source::File(files.flash);
    let bytes = read_flash(alloc, flash, &device.map, files.access, host)?;
    let text = read_script(alloc, files.script, host)?;
    let start = Start {
        device: &device,
        bytes,
        text: &text,
        is_input_read,
    };
    match run_script(alloc, files, options, start, host, out, notes) {
        Ok(answer) => Ok(answer),
        Err(refusal) => Err(refusal.in_script(text)),
    }
}

/// Whether standard input is the device file or the script of a run.
fn is_input_read(files: RunFiles<'_>) -> bool
    ensures { result ≡ (is_standard_input files.entry.device
        || is_standard_input files.entry.script) }
{
    files.device.is_standard_input() || files.script.is_standard_input()
}

/// What a run starts with.
#[derive(Drop)]
struct Start<'d, 't> {
    /// The device.
    device: &'d DeviceFile,
    /// The bytes of its flash, as its file holds them.
    bytes: Vec<u8>,
    /// The text of the script.
    text: &'t [u8],
    /// Whether standard input was read.
    is_input_read: bool,
}

/// Checks a script with the files that its lines name, runs its events on a device, and writes each
/// reply to `out`. Then syncs the file of the flash.
fn run_script<H: Host, O: Write, N: Notes>(
    alloc: Global,
    files: RunFiles<'_>,
    options: RunOptions,
    start: Start<'_, '_>,
    host: &mut H,
    out: &mut O,
    notes: &mut N,
) -> Result<Answer, Refusal>
    requires device { IsOfFile start.device.now }
    requires whole { IsFlashOf start.device.now.map start.bytes.items }
    ensures runs { IfOk result (λ answer. RunsScript options.form options.is_strict answer
        start.entry.device.now start.entry.bytes.items start.entry.text.now
        (H.input host.old) (H.file host.old) (O.contents out.old) (O.contents out.new)) }
    ensures synced { OnOk result (IsTrue (H.synced host.new)) }
    ensures opened { H.opened host.new ≡ H.opened host.old }
    ensures begun { OnErr result ((O.contents out.new ≡ O.contents out.old)
        ⊎ RunsFirstLines options.form start.entry.device.now start.entry.bytes.items
        start.entry.text.now (H.input host.old) (H.file host.old)
        (O.contents out.old) (O.contents out.new)) }
    ensures wrong { IfErr result (λ refusal. OnScriptLine refusal (λ bad.
        IsFaultOfRun start.entry.text.now start.entry.is_input_read
        (known_at (H.input host.old) (H.file host.old)) bad.line bad.fault)) }
{
    let Start {
        device,
        bytes,
        text,
        is_input_read,
    } = start;
    let CheckedScript { cuts, buffered, .. } = check_script(
        alloc,
        text,
        Some(files.flash),
        is_input_read,
        host,
    )?;
    let sources = Sources {
        alloc,
        host: &*host,
        buffered: &buffered,
    };
    notes.begin(device, bytes.as_slice());
    let run = Run {
        device,
        bytes,
        cuts,
        text,
        options,
    };
    let (blank, memory_blank) = (Blank::new(2), Blank::new(2));
    let played = play::<Brand, Brand, _, _, _>(blank, memory_blank, run, &sources, out, notes);
    // All writes have to be on the medium, also if the run ended early.
    match host.sync_flash() {
        Ok(()) => played,
        Err(error) => Err(Refusal::FlashFile(error)),
    }
}

/// Runs the events of a script on a device, and writes each reply to `out` when its event is done.
/// Each change of the flash is written to its file.
fn play<L: Ledger, M: Ledger, H: Host, O: Write, N: Notes>(
    blank: Blank,
    memory_blank: Blank,
    run: Run<'_, '_>,
    sources: &Sources<'_, '_, '_, H>,
    out: &mut O,
    notes: &mut N,
) -> Result<Answer, Refusal>
    requires blank { IsBlankOf blank L.name L.parts 2 }
    requires memory_name { memory_blank.name ≡ M.name }
    requires memory_parts { memory_blank.parts ≡ M.parts }
    requires memory_two { M.parts ≡ 2 }
    requires device { IsOfFile run.device.now }
    requires whole { IsFlashOf run.device.now.map run.bytes.items }
    ensures plays { PlaysRun run.entry.options.form run.entry.options.is_strict result
        run.entry.device.now run.entry.bytes.items (armed_in run.entry.cuts.items)
        run.entry.text.now sources.now.buffered.now (H.file sources.now.host.now)
        (O.contents out.old) (O.contents out.new) }
    ensures wrong { IfErr result (λ refusal. OnScriptLine refusal (λ bad.
        IsLostLine run.entry.text.now (known_at None (H.file sources.now.host.now))
        bad.line bad.fault)) }
{
    let Run {
        device,
        bytes,
        cuts,
        text,
        options,
    } = run;
    let alloc = sources.alloc;
    let mut memory = flash_of::<M>(alloc, memory_blank, &device.map, bytes);
    let Ok(()) = arm_all(&mut memory, cuts) else {
        return Err(Refusal::NoMemory);
    };
    let file = HostFile { host: sources.host };
    let flash = FileFlash::<_, L, M>::over(memory, blank, file);
    let mut device = Device::with_trial(flash, device.map, device.identity, device.trial_boots);
    run_events(alloc, &mut device, text, options, sources, out, notes)
}

/// Runs the events of a script's lines on a device, in order. Writes each reply to `out` when its
/// event is done, before the next event.
///
/// If a reply can't be written, or the file of a line can't be read, no event is run after it. If
/// the file of the flash failed, all events are run, and the result is `FlashFile`.
fn run_events<L: Ledger, M: Ledger, F: FlashFile + Drop, H: Host, O: Write, N: Notes>(
    alloc: Global,
    device: &mut Device<FileFlash<F, L, M>>,
    text: &[u8],
    options: RunOptions,
    sources: &Sources<'_, '_, '_, H>,
    out: &mut O,
    notes: &mut N,
) -> Result<Answer, Refusal>
    requires on { device.old.here.flash.is_on ≡ true }
    requires sound { device.old.here.flash.faults ≡ 0 }
    ensures all { IfOk result (λ answer.
        TellsText options.form options.is_strict answer device.old.setup device.old.here
        device.new.here text.now sources.now.buffered.now (H.file sources.now.host.now)
        (O.contents out.old) (O.contents out.new)) }
    ensures some { IfErr result (λ refusal.
        BreaksText options.form refusal device.old.setup device.old.here device.new.here text.now
        sources.now.buffered.now (H.file sources.now.host.now)
        (O.contents out.old) (O.contents out.new)) }
    ensures wrong { IfErr result (λ refusal. OnScriptLine refusal (λ bad.
        IsLostLine text.now (known_at None (H.file sources.now.host.now)) bad.line bad.fault)) }
{
    let mut last = Answer::Done;
    let mut has_refused = false;
    let mut failure = None;
    let mut lines = Lines::of(text);
    let mut used = 0;
    let mut number: usize = 0;
    while !lines.rest.is_empty() {
        if let Line::Event(event) = lines.next_line()? {
            let event = sources.load_event(&mut used, lines.number, event)?;
            number += 1;
            let told = run_event(alloc, device, options.form, number, event, out, notes)?;
            last = told.answer;
            has_refused |= told.has_refused;
            // Checked after each event: while no write has failed, only an armed write is cut.
            failure = first_failure(failure, device.flash().failure());
        }
    }
    match failure {
        Some(error) => Err(Refusal::FlashFile(error)),
        None => Ok(ending(options.is_strict, has_refused, last)),
    }
}

/// The first of two failed writes, if one failed.
fn first_failure(first: Option<io::Error>, next: Option<io::Error>) -> Option<io::Error>
    ensures { is_some result ≡ (is_some first || is_some next) }
{
    match first {
        Some(error) => Some(error),
        None => next,
    }
}

/// The answer of a run whose last reply has the answer `last`. With `is_strict` a reply that refuses
/// something makes it `Refused`, unless the power failed last.
fn ending(is_strict: bool, has_refused: bool, last: Answer) -> Answer
    ensures { result ≡ ending is_strict has_refused last }
{
    match last {
        Answer::Done if is_strict && has_refused => Answer::Refused,
        _ => last,
    }
}

/// Runs an event on a device, and writes the reply and the notes on it to `out`.
fn run_event<F: Flash, O: Write, N: Notes>(
    alloc: Global,
    device: &mut Device<F>,
    form: Form,
    number: usize,
    event: Event<Vec<u8>>,
    out: &mut O,
    notes: &mut N,
) -> Result<Told, Refusal>
    requires { device.old.here.flash.is_on ≡ true }
    ensures setup { device.new.setup ≡ device.old.setup }
    ensures on { device.new.here.flash.is_on ≡ true }
    ensures told { IfOk result (λ told.
        TellsEvent form told number device.old.setup device.old.here device.new.here
        (came_of event) (O.contents out.old) (O.contents out.new)) }
    ensures begun { IfErr result (λ refusal.
        BreaksEvent form refusal number device.old.setup device.old.here device.new.here
        (came_of event) (O.contents out.old) (O.contents out.new)) }
    ensures unnamed { IfErr result (λ refusal. script_line refusal ≡ None) }
{
    let borrowed = event.as_deref();
    let reply = step(alloc, device, &borrowed);
    write_reply(alloc, form, number, &reply, out)?;
    let mut told = NoteList::new(alloc);
    notes.tell(number, &event, &reply, &mut told);
    write_notes(alloc, form, number, &told, out)?;
    Ok(Told {
        answer: answer_after(&reply),
        has_refused: is_refusal(&reply),
    })
}

/// Whether a reply is a refusal, or the report of a boot that refuses a request.
fn is_refusal(reply: &Reply) -> bool
    ensures { result ≡ is_refusal reply.now }
{
    match reply {
        Reply::Refused(_) => true,
        Reply::Booted { report, .. } => report.refusals.len() > 0,
        _ => false,
    }
}

/// The answer of a run whose last reply is this.
fn answer_after(reply: &Reply) -> Answer
    ensures { result ≡ answer_after (Some reply.now) }
{
    match reply {
        Reply::Cut => Answer::Cut,
        Reply::Refused(_) => Answer::Refused,
        _ => Answer::Done,
    }
}
