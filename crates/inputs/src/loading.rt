//! Reads the text of a script, and all events of a script that runs more than once.
ghost use Rattle.std.specs.Prelude.{◌≡◌, ◌++◌, ◌∷◌, [], IfErr, IfOk, None, OnOk};
ghost use Rattle.host.specs.Input.{Gives, KeepsFiles, KeepsOthers};
ghost use Rattle.host.specs.ScriptLines.{script_line};
ghost use Rattle.inputs.specs.Loading.{LoadsAll, came_in};
ghost use Rattle.inputs.specs.Script.{IsScript, Known, StaysKnown, known_at};
ghost use Rattle.inputs.specs.ScriptFault.{IsFaultOfUncut, IsLostLine, OnScriptLine};

use crate::checking::check_script;
use crate::lines::Lines;
use crate::sources::Sources;
use device_texts::Line;
use host::{Host, MOST_SCRIPT, Refusal, ScriptFault, Source};
use machine::Event;
use std::alloc::Global;

/// Reads the text of a script from `host` into memory of `alloc`.
///
/// # Errors
/// `ScriptLine` if it is too long, with the number of the line that exceeds the limit. `OfSource` if
/// it can't be read. `NoMemory` if memory ran out.
pub fn read_script<H: Host>(
    alloc: Global,
    script: Source<'_>,
    host: &mut H,
) -> Result<Vec<u8>, Refusal>
    ensures bytes { IfOk result (λ bytes.
        Gives script.entry (H.input host.old) (H.file host.old) bytes.items) }
    ensures wrong { IfErr result (λ refusal. OnScriptLine refusal (λ bad.
        bad.fault ≡ ScriptFault.TooLong)) }
    ensures others { KeepsOthers script.entry (H.input host.old) (H.file host.old)
        (H.input host.new) (H.file host.new) }
    ensures files { KeepsFiles (H.file host.old) (H.file host.new) }
    ensures opened { H.opened host.new ≡ H.opened host.old }
{
    let start = script.read_start(alloc, host, MOST_SCRIPT)?;
    if start.len() <= MOST_SCRIPT as usize {
        return Ok(start);
    }
    let ended = start
        .iter()
        .take(MOST_SCRIPT as usize)
        .filter(|byte| **byte == b'\n')
        .count();
    Err(Refusal::of_line(ended.saturating_add(1), ScriptFault::TooLong))
}

/// Returns the events of a script that has no `cut` lines, from its text, with the bytes of the
/// files that its lines name. The files are read from `host` into memory of `alloc`. If standard
/// input was read before, no line may name it.
///
/// # Errors
/// The errors of [`check_script`], and `ScriptLine` of line 1 if the script has a `cut` line.
pub fn load<H: Host>(
    alloc: Global,
    text: &[u8],
    is_input_read: bool,
    host: &mut H,
) -> Result<Vec<Event<Vec<u8>>>, Refusal>
    ensures script { IfOk result (λ events. (known : Known)
        → StaysKnown known (H.input host.old) (H.file host.old)
        → IsScript text.now known [] (came_in events.items)) }
    ensures wrong { IfErr result (λ refusal. OnScriptLine refusal (λ bad.
        IsFaultOfUncut text.now is_input_read (known_at (H.input host.old) (H.file host.old))
        bad.line bad.fault)) }
    ensures files { KeepsFiles (H.file host.old) (H.file host.new) }
    ensures opened { H.opened host.new ≡ H.opened host.old }
{
    let checked = check_script(alloc, text, None, is_input_read, host)?;
    if !checked.cuts.as_slice().is_empty() {
        // The `cut` lines come first in a script.
        return Err(Refusal::of_line(1, ScriptFault::Cut));
    }
    let sources = Sources {
        alloc,
        host: &*host,
        buffered: &checked.buffered,
    };
    load_events(text, &sources)
}

/// Loads all events of a checked script.
fn load_events<H: Host>(
    text: &[u8],
    sources: &Sources<'_, '_, '_, H>,
) -> Result<Vec<Event<Vec<u8>>>, Refusal>
    ensures loaded { IfOk result (λ events. LoadsAll text.now sources.now.buffered.now
        (H.file sources.now.host.now) (came_in events.items)) }
    ensures wrong { IfErr result (λ refusal. OnScriptLine refusal (λ bad.
        IsLostLine text.now (known_at None (H.file sources.now.host.now)) bad.line bad.fault)) }
{
    let mut events = Vec::new(sources.alloc);
    let mut lines = Lines::of(text);
    let mut used = 0;
    while !lines.rest.is_empty() {
        if let Line::Event(event) = lines.next_line()? {
            let event = sources.load_event(&mut used, lines.number, event)?;
            add_event(&mut events, event)?;
        }
    }
    Ok(events)
}

/// Adds an event to those of the earlier lines.
fn add_event(events: &mut Vec<Event<Vec<u8>>>, event: Event<Vec<u8>>) -> Result<(), Refusal>
    ensures added { OnOk result (events.new.items ≡ events.old.items ++ event ∷ []) }
    ensures unnamed { IfErr result (λ refusal. script_line refusal ≡ None) }
{
    match events.push(event) {
        Ok(()) => Ok(()),
        Err(_) => Err(Refusal::NoMemory),
    }
}
