//! Checks a script before anything is run: each of its lines and the files that they name.
ghost use Rattle.std.specs.Prelude.{◌≡◌, ◌++◌, ◌||◌, ◌∷◌, [], IfErr, IfOk, IfSome, None, OnOk, Some, false, true};
ghost use Rattle.std.specs.Option.{option_map};
ghost use Rattle.machine.specs.Event.{event_map};
ghost use Rattle.device_texts.specs.Said.{SaidFile, part_words, said, said_file, said_torn};
ghost use Rattle.device_texts.specs.FlashOf.{armed_in, armed_of};
ghost use Rattle.host.specs.Input.{KeepsFiles};
ghost use Rattle.host.specs.ScriptLines.{script_line};
ghost use Rattle.inputs.specs.Loading.{AddsCut, AreBuffered, AreCutsOf, BuffersIfNeeded, CanBeReadAgain, IsInputFault, IsInputPiece, KeepsBuffered};
ghost use Rattle.inputs.specs.Script.{IsCutBy, file_in, known_at};
ghost use Rattle.inputs.specs.ScriptFault.{IsFileFault, IsRightScript, IsWrongLine, MayName, NamesLine, OnScriptLine, file_of_line, is_input, is_input_name};

use crate::lines::Lines;
use crate::sources::{part_of, piece_of};
use device_texts::{CutWrite, FileText, Line, TornText};
use host::{Host, MOST_FILE, Refusal, ScriptFault, Source};
use machine::Event;
use std::alloc::Global;

/// The bytes that a line names of an input that can't be read twice: standard input, a file that
/// isn't a plain one, or the file of the flash, which changes.
#[derive(Drop)]
pub struct BufferedInput<'a> {
    /// What the line names.
    pub file: FileText<'a>,
    /// Its bytes.
    pub bytes: Vec<u8>,
}

/// What was found out about a script while its lines were checked.
#[derive(Drop)]
pub struct CheckedScript<'a> {
    /// The writes that a power cut interrupts, in the order of their numbers.
    pub cuts: Vec<CutWrite>,
    /// The inputs of lines that can't be read twice, in the order of the lines.
    pub buffered: Vec<BufferedInput<'a>>,
    /// Whether standard input was read.
    pub is_input_read: bool,
}

/// Checks each line of a script's text, in order, together with the file that it names.
///
/// Each file is read from `host` into memory of `alloc`. A file that can be read again at its event
/// is dropped immediately, all others are buffered. `flash` is the file that the run writes, if
/// there is one. If standard input was read before, no line may name it.
///
/// # Errors
/// Reports the first line with a fault:
/// - `ScriptLine` if it isn't a line of a script, or can't follow the lines before it. The same if
///   it names standard input again, or a part that its file doesn't have.
/// - `CannotRead` if its file can't be read, `TooLong` if the file is too long.
///
/// `NoMemory` if memory ran out.
pub fn check_script<'a, H: Host>(
    alloc: Global,
    text: &'a [u8],
    flash: Option<&str>,
    is_input_read: bool,
    host: &mut H,
) -> Result<CheckedScript<'a>, Refusal>
    ensures cuts { IfOk result (λ checked. AreCutsOf text.now (armed_in checked.cuts.items)) }
    ensures buffered { IfOk result (λ checked.
        AreBuffered checked.buffered.items (H.input host.old) (H.file host.old)) }
    ensures right { OnOk result (IsRightScript text.now is_input_read
        (known_at (H.input host.old) (H.file host.old))) }
    ensures wrong { IfErr result (λ refusal. OnScriptLine refusal (λ bad.
        IsWrongLine text.now is_input_read (known_at (H.input host.old) (H.file host.old))
        bad.line bad.fault)) }
    ensures files { KeepsFiles (H.file host.old) (H.file host.new) }
    ensures opened { H.opened host.new ≡ H.opened host.old }
{
    let mut checked = CheckedScript {
        cuts: Vec::new(alloc),
        buffered: Vec::new(alloc),
        is_input_read,
    };
    let mut lines = Lines::of(text);
    while !lines.rest.is_empty() {
        let line = lines.next_line()?;
        check_line(alloc, flash, &mut checked, host, lines.number, line)?;
    }
    Ok(checked)
}

/// Checks the line of this number, and adds what it says to `checked`.
fn check_line<'a, H: Host>(
    alloc: Global,
    flash: Option<&str>,
    checked: &mut CheckedScript<'a>,
    host: &mut H,
    number: usize,
    line: Line<'a>,
) -> Result<(), Refusal>
    ensures cuts { OnOk result (AddsCut (said line.entry)
        (armed_in checked.old.cuts.items) (armed_in checked.new.cuts.items)) }
    ensures buffered { OnOk result (KeepsBuffered checked.old.buffered.items checked.new.buffered.items
        checked.old.is_input_read checked.new.is_input_read
        (H.input host.old) (H.file host.old) (H.input host.new)) }
    ensures read { OnOk result (checked.new.is_input_read
        ≡ (checked.old.is_input_read || is_input (file_of_line (said line.entry)))) }
    ensures right { OnOk result (IfSome (file_of_line (said line.entry)) (MayName
        checked.old.is_input_read (known_at (H.input host.old) (H.file host.old)))) }
    ensures wrong { IfErr result (NamesLine number (λ why. (file : SaidFile)
        × (file_of_line (said line.entry) ≡ Some file) × IsFileFault checked.old.is_input_read
        (known_at (H.input host.old) (H.file host.old)) file why)) }
    ensures files { KeepsFiles (H.file host.old) (H.file host.new) }
    ensures opened { H.opened host.new ≡ H.opened host.old }
{
    match line {
        Line::Cut { write, torn } => {
            let cut = cut_write(alloc, write, torn)?;
            add_cut(&mut checked.cuts, cut)
        }
        Line::Event(event) => match file_of(event) {
            Some(file) => check_file(alloc, flash, checked, host, number, file),
            None => Ok(()),
        },
    }
}

/// Returns the write that a `cut` line of a script interrupts.
fn cut_write(alloc: Global, write: u32, torn: TornText<'_>) -> Result<CutWrite, Refusal>
    ensures cut { IfOk result (λ cut. IsCutBy write (said_torn torn.entry) (armed_of cut)) }
    ensures unnamed { IfErr result (λ refusal. script_line refusal ≡ None) }
{
    match torn.torn(alloc) {
        Ok(torn) => Ok(CutWrite { write, torn }),
        Err(_) => Err(Refusal::NoMemory),
    }
}

/// Adds a `cut` to those of the earlier lines.
fn add_cut(cuts: &mut Vec<CutWrite>, cut: CutWrite) -> Result<(), Refusal>
    ensures added { OnOk result (cuts.new.items ≡ cuts.old.items ++ cut ∷ []) }
    ensures unnamed { IfErr result (λ refusal. script_line refusal ≡ None) }
{
    match cuts.push(cut) {
        Ok(()) => Ok(()),
        Err(_) => Err(Refusal::NoMemory),
    }
}

/// Returns the file that an event names, and the part of it, if it names one.
fn file_of(event: Event<FileText<'_>>) -> Option<FileText<'_>>
    ensures { option_map said_file result ≡ file_in (event_map said_file event.entry) }
{
    match event {
        Event::Accept(file) | Event::Piece(_, file) => Some(file),
        _ => None,
    }
}

/// Reads the bytes that the line of this number names, and buffers them if they can't be read
/// again.
fn check_file<'a, H: Host>(
    alloc: Global,
    flash: Option<&str>,
    checked: &mut CheckedScript<'a>,
    host: &mut H,
    number: usize,
    file: FileText<'a>,
) -> Result<(), Refusal>
    ensures cuts { checked.new.cuts.items ≡ checked.old.cuts.items }
    ensures buffered { OnOk result (KeepsBuffered checked.old.buffered.items checked.new.buffered.items
        checked.old.is_input_read checked.new.is_input_read
        (H.input host.old) (H.file host.old) (H.input host.new)) }
    ensures read { OnOk result (checked.new.is_input_read
        ≡ (checked.old.is_input_read || is_input_name file.entry.name.now)) }
    ensures right { OnOk result (MayName checked.old.is_input_read
        (known_at (H.input host.old) (H.file host.old)) (said_file file.entry)) }
    ensures wrong { IfErr result (NamesLine number (IsFileFault checked.old.is_input_read
        (known_at (H.input host.old) (H.file host.old)) (said_file file.entry))) }
    ensures again { OnOk result (BuffersIfNeeded (H.plain host.new) (H.apart host.new) flash.entry
        file.entry checked.old.buffered.items checked.new.buffered.items) }
    ensures files { KeepsFiles (H.file host.old) (H.file host.new) }
    ensures opened { H.opened host.new ≡ H.opened host.old }
{
    match Source::named(file.name) {
        Source::StandardInput => {
            let bytes = input_part(alloc, &mut checked.is_input_read, host, number, file)?;
            add_input(&mut checked.buffered, BufferedInput { file, bytes })
        }
        Source::File(name) => {
            let bytes = piece_of(alloc, &*host, number, file)?;
            if can_be_read_again(&*host, name, flash) {
                return Ok(());
            }
            add_input(&mut checked.buffered, BufferedInput { file, bytes })
        }
    }
}

/// Adds an input to those of the earlier lines.
fn add_input<'a>(
    buffered: &mut Vec<BufferedInput<'a>>,
    input: BufferedInput<'a>,
) -> Result<(), Refusal>
    ensures added { OnOk result (buffered.new.items ≡ buffered.old.items ++ input.entry ∷ []) }
    ensures unnamed { IfErr result (λ refusal. script_line refusal ≡ None) }
{
    match buffered.push(input) {
        Ok(()) => Ok(()),
        Err(_) => Err(Refusal::NoMemory),
    }
}

/// Reads the bytes of standard input that the line of this number names. Refuses the line if
/// standard input was read before.
fn input_part<H: Host>(
    alloc: Global,
    is_read: &mut bool,
    host: &mut H,
    number: usize,
    file: FileText<'_>,
) -> Result<Vec<u8>, Refusal>
    ensures first { OnOk result (is_read.old ≡ false) }
    ensures read { OnOk result (is_read.new ≡ true) }
    ensures piece { IfOk result (λ piece. IsInputPiece (option_map part_words file.entry.part)
        (H.input host.old) piece.items) }
    ensures wrong { IfErr result (NamesLine number (IsInputFault is_read.old (H.input host.old)
        (option_map part_words file.entry.part))) }
    ensures files { KeepsFiles (H.file host.old) (H.file host.new) }
    ensures opened { H.opened host.new ≡ H.opened host.old }
{
    if *is_read {
        return Err(Refusal::of_line(number, ScriptFault::InputRead));
    }
    *is_read = true;
    let bytes = Source::StandardInput.read(alloc, host, MOST_FILE)?;
    part_of(alloc, number, bytes, file.part)
}

/// Returns whether a file gives the same bytes again at its event: it is a plain file, and isn't
/// the file of the flash by another name. If the host can't say so, the answer is no.
fn can_be_read_again<H: Host>(host: &H, name: &str, flash: Option<&str>) -> bool
    ensures { result ≡ true
        → CanBeReadAgain (H.plain host.now) (H.apart host.now) name.now flash.entry }
{
    let is_plain = host.is_plain(name).unwrap_or(false);
    let is_flash = match flash {
        Some(flash) => host.is_same_file(name, flash).unwrap_or(true),
        None => false,
    };
    is_plain && !is_flash
}
