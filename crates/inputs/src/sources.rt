//! Loads the events of a script's lines, with the bytes of the files that the lines name.
ghost use Rattle.std.specs.Prelude.{◌≡◌, ◌≢◌, ◌≤◌, IfErr, IfNone, IfOk, IfSome, None, Some, codes, IsTrue, false, length, slice_get, true};
ghost use Rattle.std.specs.Option.{option_map};
ghost use Rattle.machine.specs.Event.{event_map};
ghost use Rattle.host.specs.Input.{IsKnownAs, IsKnownPart, LacksPart};
ghost use Rattle.host.specs.ScriptLines.{script_line};
ghost use Rattle.host.specs.Status.{status_of_refusal};
ghost use Rattle.device_texts.specs.Said.{SaidFile, file_of, part_words, said_file};
ghost use Rattle.inputs.specs.Loading.{EventTakesNext, IsNextOther, IsPartReason, Loads, ReadsNow, TakesNext, came_of};
ghost use Rattle.inputs.specs.Script.{Comes, IsPieceOf, ReadsFile, file_in, known_at};
ghost use Rattle.inputs.specs.ScriptFault.{IsFileFault, IsPartFault, NamesLine};

use crate::checking::BufferedInput;
use device_texts::{FileText, PartText};
use host::{FilePart, Host, MOST_FILE, Refusal, ScriptFault, Source, SourceFault};
use machine::Event;
use std::alloc::Global;

/// The inputs from which the lines of a checked script are loaded: the files of a host, and the
/// buffered inputs.
#[derive(Drop)]
pub struct Sources<'a, 'r, 'k, H> {
    /// The memory that events are loaded into.
    pub alloc: Global,
    /// The host of the files.
    pub host: &'r H,
    /// The inputs that can't be read twice, in the order of the lines.
    pub buffered: &'k [BufferedInput<'a>],
}

impl<H: Host> Sources<'_, '_, '_, H> {
    /// Returns the event of the line of this number, with the bytes of its file. `used` is the
    /// number of buffered inputs that were used, and is increased if this event uses one.
    ///
    /// # Errors
    /// The file isn't as it was when the script was checked: `CannotRead`, `TooLong`, or
    /// `ScriptLine` if it doesn't have the part. `NoMemory` if memory ran out.
    pub fn load_event(
        &self,
        used: &mut usize,
        number: usize,
        event: Event<FileText<'_>>,
    ) -> Result<Event<Vec<u8>>, Refusal>
        ensures loaded { IfOk result (λ read.
            Loads self.now.buffered.now (H.file self.now.host.now)
            (λ known after. Comes (event_map said_file event.entry) known (came_of read) after)) }
        ensures next { IfOk result (λ read.
            EventTakesNext self.now.buffered.now used.old used.new (event_map said_file event.entry)
            (came_of read)) }
        ensures wrong { IfErr result (NamesLine number (λ why. (file : SaidFile)
            × (file_in (event_map said_file event.entry) ≡ Some file)
            × IsFileFault true (known_at None (H.file self.now.host.now)) file why)) }
        ensures refused { IfErr result (λ refusal. status_of_refusal refusal ≡ 1) }
    {
        match event {
            Event::Accept(file) => {
                let text = self.bytes_of(used, number, file)?;
                Ok(Event::Accept(text))
            }
            Event::Piece(image, file) => {
                let piece = self.bytes_of(used, number, file)?;
                Ok(Event::Piece(image, piece))
            }
            Event::Finish(image) => Ok(Event::Finish(image)),
            Event::Withdraw(image) => Ok(Event::Withdraw(image)),
            Event::Confirm(image) => Ok(Event::Confirm(image)),
            Event::Boot => Ok(Event::Boot),
            Event::Reset => Ok(Event::Reset),
        }
    }

    /// Returns the bytes that the line of this number names: those of the next buffered input if
    /// that is of this line, and else those that are read from the file.
    fn bytes_of(
        &self,
        used: &mut usize,
        number: usize,
        file: FileText<'_>,
    ) -> Result<Vec<u8>, Refusal>
        ensures loaded { IfOk result (λ bytes.
            Loads self.now.buffered.now (H.file self.now.host.now)
            (ReadsFile (said_file file.entry) bytes.items)) }
        ensures next { IfOk result (λ bytes.
            TakesNext self.now.buffered.now used.old used.new (said_file file.entry) bytes.items) }
        ensures wrong { IfErr result (NamesLine number (IsFileFault true
            (known_at None (H.file self.now.host.now)) (said_file file.entry))) }
        ensures refused { IfErr result (λ refusal. status_of_refusal refusal ≡ 1) }
    {
        let Some(input) = self.next_for(*used, file) else {
            return piece_of(self.alloc, self.host, number, file);
        };
        let Some(next) = used.checked_add(1) else {
            return Err(Refusal::NoMemory);
        };
        *used = next;
        match Vec::from_slice(self.alloc, &input.bytes) {
            Ok(bytes) => Ok(bytes),
            Err(_) => Err(Refusal::NoMemory),
        }
    }

    /// Returns the next buffered input if it is of the line that names this file. `used` is the
    /// number of buffered inputs that were used.
    fn next_for(&self, used: usize, file: FileText<'_>) -> Option<&BufferedInput<'_>>
        ensures next { IfSome result (λ input.
            slice_get self.now.buffered.now used ≡ Some input.now) }
        ensures same { IfSome result (λ input.
            said_file input.now.file ≡ said_file file.entry) }
        ensures other { IfNone result (IsNextOther self.now.buffered.now used
            (said_file file.entry)) }
    {
        let Some(input) = self.buffered.get(used) else {
            return None;
        };
        if is_same_text(input.file, file) {
            Some(input)
        } else {
            None
        }
    }
}

/// Returns whether two lines name the same file and part, by the same words.
fn is_same_text(one: FileText<'_>, other: FileText<'_>) -> bool
    ensures same { IsTrue result → said_file one.entry ≡ said_file other.entry }
    ensures differ { result ≡ false → said_file one.entry ≢ said_file other.entry }
{
    let is_same_part = match (one.part, other.part) {
        (None, None) => true,
        (Some(one), Some(other)) => one.from == other.from && one.count == other.count,
        _ => false,
    };
    is_same_part && one.name == other.name
}

/// Reads the bytes that the line of this number names: a part of a file, or the complete file. No
/// other part of a plain file is read. Standard input is refused.
pub fn piece_of<H: Host>(
    alloc: Global,
    host: &H,
    number: usize,
    file: FileText<'_>,
) -> Result<Vec<u8>, Refusal>
    ensures read { IfOk result (λ bytes.
        ReadsNow (said_file file.entry) bytes.items (H.file host.now)) }
    ensures most { IfOk result (λ bytes. length bytes.items ≤ MOST_FILE) }
    ensures wrong { IfErr result (NamesLine number (IsFileFault true
        (known_at None (H.file host.now)) (said_file file.entry))) }
    ensures refused { IfErr result (λ refusal. status_of_refusal refusal ≡ 1) }
{
    match (Source::named(file.name), file.part) {
        (Source::StandardInput, _) => { Err(Refusal::of_line(number, ScriptFault::InputRead)) }
        (Source::File(name), Some(part)) => file_part(alloc, host, number, name, part),
        (Source::File(name), None) => whole_file(alloc, host, name),
    }
}

/// Reads the complete contents of a file that isn't standard input.
fn whole_file<H: Host>(alloc: Global, host: &H, name: &str) -> Result<Vec<u8>, Refusal>
    ensures bytes { IfOk result (λ bytes. IsKnownAs (H.file host.now name.now) bytes.items) }
    ensures most { IfOk result (λ bytes. length bytes.items ≤ MOST_FILE) }
    ensures unnamed { IfErr result (λ refusal. script_line refusal ≡ None) }
    ensures refused { IfErr result (λ refusal. status_of_refusal refusal ≡ 1) }
{
    let source = Source::File(name);
    match host.read_again(alloc, name, MOST_FILE) {
        Ok(bytes) if bytes.len() > MOST_FILE as usize => {
            Err(source.refused(alloc, SourceFault::TooLong(MOST_FILE)))
        }
        Ok(bytes) => Ok(bytes),
        Err(error) => Err(source.refusal(alloc, error)),
    }
}

/// Reads the part that the line of this number names of a file that isn't standard input.
///
/// The file is read even if the words aren't numbers, because an unreadable file is reported first.
fn file_part<H: Host>(
    alloc: Global,
    host: &H,
    number: usize,
    name: &str,
    part: PartText<'_>,
) -> Result<Vec<u8>, Refusal>
    requires { name.now ≢ codes "-" }
    ensures read { IfOk result (λ piece.
        ReadsNow (file_of name.now (Some (part_words part.entry))) piece.items (H.file host.now)) }
    ensures most { IfOk result (λ piece. length piece.items ≤ MOST_FILE) }
    ensures wrong { IfErr result (NamesLine number
        (IsPartFault (Some (part_words part.entry)) (H.file host.now name.now))) }
    ensures refused { IfErr result (λ refusal. status_of_refusal refusal ≡ 1) }
{
    let Some((from, count)) = part.numbers() else {
        part_at(alloc, host, name, 0, 0)?;
        return Err(Refusal::of_line(number, ScriptFault::PartNumbers));
    };
    let Some(piece) = part_at(alloc, host, name, from, count)? else {
        let fault = ScriptFault::NoPart(host.length_of(name).ok());
        return Err(Refusal::of_line(number, fault));
    };
    Ok(piece)
}

/// Reads `count` bytes of a file from byte `from` on, or returns `None` if the file doesn't have
/// them. The limit is that of a complete file.
fn part_at<H: Host>(
    alloc: Global,
    host: &H,
    name: &str,
    from: usize,
    count: usize,
) -> Result<Option<Vec<u8>>, Refusal>
    ensures part { IfOk result (λ read. IfSome read (λ part.
        IsKnownPart (H.file host.now name.now) from count part.items)) }
    ensures missing { IfOk result (λ read. IfNone read
        (LacksPart (H.file host.now name.now) from count)) }
    ensures most { IfOk result (λ read. IfSome read (λ part. length part.items ≤ MOST_FILE)) }
    ensures unnamed { IfErr result (λ refusal. script_line refusal ≡ None) }
    ensures refused { IfErr result (λ refusal. status_of_refusal refusal ≡ 1) }
{
    let source = Source::File(name);
    match host.read_part(alloc, name, FilePart { from, count }) {
        Ok(Some(part)) if part.len() > MOST_FILE as usize => {
            Err(source.refused(alloc, SourceFault::TooLong(MOST_FILE)))
        }
        Ok(part) => Ok(part),
        Err(error) => Err(source.refusal(alloc, error)),
    }
}

/// Returns the part of these bytes that the line of this number names, or all of them if it names
/// no part.
pub fn part_of(
    alloc: Global,
    number: usize,
    bytes: Vec<u8>,
    part: Option<PartText<'_>>,
) -> Result<Vec<u8>, Refusal>
    ensures piece { IfOk result (λ piece.
        IsPieceOf (option_map part_words part.entry) bytes.items piece.items) }
    ensures wrong { IfErr result (NamesLine number
        (IsPartFault (option_map part_words part.entry) (Some bytes.items))) }
{
    let Some(part) = part else {
        return Ok(bytes);
    };
    let Some(range) = part.of(&bytes) else {
        return Err(Refusal::of_line(number, part_fault(part, bytes.len())));
    };
    match Vec::from_slice(alloc, range) {
        Ok(part) => Ok(part),
        Err(_) => Err(Refusal::NoMemory),
    }
}

/// Why a line may not name this part of an input of `length` bytes.
fn part_fault(part: PartText<'_>, length: usize) -> ScriptFault
    ensures { IsPartReason (part_words part.entry) length result }
{
    match part.numbers() {
        Some(_) => ScriptFault::NoPart(Some(length as u64)),
        None => ScriptFault::PartNumbers,
    }
}
