//! Reads a fleet piece by piece, and writes each device with its result once its table is complete.

ghost use Rattle.std.specs.Prelude.{◌≡◌, ◌≢◌, ◌++◌, ◌∷◌, ℕ, IfOk, List, None, Option, [], OnErr, OnOk, option_copied};
ghost use Rattle.reports.specs.declared.table.Entry.{Entry};
ghost use Rattle.common.specs.Ascii.{LacksByte};
ghost use Rattle.common.specs.Lines.{lines_of};
ghost use Rattle.inspecting.specs.Bounded.{Holds};
ghost use Rattle.inspecting.specs.Fleet.{BeginsDevice, BeginsNext, BeginsNone, Device, with_line};
ghost use Rattle.inspecting.specs.Plan.{Planned};
ghost use Rattle.inspecting.specs.Planning.{Advances, BreaksBytes, BreaksLine, BreaksLines, EndsPlan, HasRead, IsReadSoFar, ReadsLines, ReadsSome, Stands, Tells, TellsPart};
ghost use Rattle.inspecting.specs.SummaryRows.{Summarizes};

use crate::fleet::bounded::Bounded;
use crate::fleet::device_line::{DEVICE, begins_device};
use crate::fleet::outcome::{Outcome, outcome_of};
use crate::fleet::plan_notes::PlanNotes;
use crate::fleet::requests::Requests;
use crate::fleet::result_lines::write_result;
use crate::fleet::summary::Summary;
use crate::fleet::telling::{Telling, Told};
use common::ascii::cut;
use host::Refusal;
use reports::Table;
use std::alloc::{AllocError, Global};
use std::io::Write;

/// A device of which the first lines are read.
#[derive(Drop)]
pub struct Current {
    /// The line that begins it, with its line feed.
    pub first: Vec<u8>,
    /// The text of its table so far.
    pub table: Bounded,
}

impl Current {
    /// Creates a device without lines, in memory of `alloc`.
    fn new(alloc: Global) -> Self {
        Current {
            first: Vec::new(alloc),
            table: Bounded::new(alloc),
        }
    }

    /// Begins a device with this line. The memory of the one before is used again.
    fn begin(&mut self, line: &[u8]) -> Result<(), Refusal>
        ensures first { OnOk result (self.new.first.items ≡ line.now ++ 10 ∷ []) }
        ensures table { OnOk result (Holds [] self.new.table) }
    {
        self.first.clear();
        self.table.clear();
        let Ok(()) = push_line(&mut self.first, line) else {
            return Err(Refusal::NoMemory);
        };
        Ok(())
    }

    /// Returns its name.
    fn name(&self) -> &str
        ensures { (device : Device) → IsReadSoFar device self.now → result.now ≡ device.name }
    {
        match str::from_utf8(self.name_bytes()) {
            Ok(name) => name,
            // A name is ASCII, so this doesn't come.
            Err(_) => "",
        }
    }

    /// Returns the bytes of its name.
    fn name_bytes(&self) -> &[u8]
        ensures { (device : Device) → IsReadSoFar device self.now → result.now ≡ device.name }
    {
        match self.first.strip_prefix(DEVICE) {
            Some(rest) => without_feed(rest),
            None => &self.first,
        }
    }

    /// Adds a line to its table.
    fn add_line(&mut self, line: &Bounded) -> Result<(), Refusal>
        ensures { OnOk result ((device : Device) (added : List ℕ)
            → IsReadSoFar device self.old → BeginsNone added → Holds added line.now
            → IsReadSoFar (with_line device added) self.new) }
    {
        let Ok(()) = self.table.push_line(line) else {
            return Err(Refusal::NoMemory);
        };
        Ok(())
    }
}

/// A fleet of which a part is read.
#[derive(Drop)]
pub struct Planner {
    /// Where its texts are.
    alloc: Global,
    /// The bytes after the last line feed.
    line: Bounded,
    /// The device whose table is read.
    device: Option<Current>,
    /// A device that has its result. Its memory is used for the next one.
    spare: Option<Current>,
    /// A place for the table of a device.
    table: Table,
    /// Where the results go.
    pub told: Told,
    /// Whether the result of a device is no report.
    pub has_bad: bool,
}

impl Planner {
    /// Creates a planner that has read nothing.
    pub fn new(alloc: Global, telling: Telling) -> Self
        ensures { (entries : List (Option Entry)) → Stands entries telling result [] [] }
    {
        Planner {
            alloc,
            line: Bounded::new(alloc),
            device: None,
            spare: None,
            table: Table::default(),
            told: match telling {
                Telling::Devices(form) => Told::Written(form),
                Telling::Summary(form) => Told::Counted(form, Summary::new(alloc)),
            },
            has_bad: false,
        }
    }

    /// Reads the next bytes of a fleet. Writes to `out` each device whose table they complete, with
    /// its result.
    ///
    /// # Errors
    /// `FleetLine` if the first line begins no device, `NoMemory` if memory runs out, `CannotWrite`
    /// if a write fails.
    pub fn read<W: Write, N: PlanNotes>(
        &mut self,
        requests: &Requests,
        bytes: &[u8],
        notes: &mut N,
        out: &mut W,
    ) -> Result<(), Refusal>
        ensures advances { OnOk result (Advances requests.now.entries self.old self.new bytes.now
            (W.contents out.old) (W.contents out.new)) }
        ensures begun { OnErr result (BreaksBytes requests.now.entries self.old bytes.now
            (W.contents out.old) (W.contents out.new)) }
    {
        let mut rest = Some(bytes);
        while let Some(text) = rest {
            rest = self.read_line(requests, text, notes, out)?;
        }
        Ok(())
    }

    /// Ends the fleet, and writes its last device to `out`.
    ///
    /// # Errors
    /// The same as those of [`Planner::read`].
    pub fn end<W: Write, N: PlanNotes>(
        &mut self,
        requests: &Requests,
        notes: &mut N,
        out: &mut W,
    ) -> Result<(), Refusal>
        ensures ends { OnOk result ((telling : Telling) (bytes : List ℕ) (plan : List Planned)
            → Stands requests.now.entries telling self.old bytes plan
            → EndsPlan requests.now.entries telling self.new bytes plan
            (W.contents out.old) (W.contents out.new)) }
        ensures begun { OnErr result ((telling : Telling) (bytes : List ℕ) (plan : List Planned)
            → Stands requests.now.entries telling self.old bytes plan
            → BreaksLines requests.now.entries telling (lines_of bytes) plan
            (W.contents out.old) (W.contents out.new)) }
    {
        self.end_last_line(requests, notes, out)?;
        self.end_device(requests, notes, out)
    }

    /// Ends the last line of the fleet, if it has no line feed.
    fn end_last_line<W: Write, N: PlanNotes>(
        &mut self,
        requests: &Requests,
        notes: &mut N,
        out: &mut W,
    ) -> Result<(), Refusal>
        ensures lines { OnOk result ((telling : Telling) (bytes : List ℕ) (plan : List Planned)
            → Stands requests.now.entries telling self.old bytes plan
            → ReadsLines requests.now.entries telling self.new (lines_of bytes) plan
            (W.contents out.old) (W.contents out.new)) }
        ensures begun { OnErr result ((telling : Telling) (bytes : List ℕ) (plan : List Planned)
            → Stands requests.now.entries telling self.old bytes plan
            → BreaksLines requests.now.entries telling (lines_of bytes) plan
            (W.contents out.old) (W.contents out.new)) }
    {
        if self.line.is_empty() {
            return Ok(());
        }
        self.end_line(requests, notes, out)
    }

    /// Reads bytes up to and including their first line feed, and returns the bytes after it. If
    /// they have none, reads all of them, and returns `None`.
    fn read_line<'b, W: Write, N: PlanNotes>(
        &mut self,
        requests: &Requests,
        bytes: &'b [u8],
        notes: &mut N,
        out: &mut W,
    ) -> Result<Option<&'b [u8]>, Refusal>
        ensures some { IfOk result (λ rest. ReadsSome requests.now.entries self.old self.new bytes.now
            (option_copied rest) (W.contents out.old) (W.contents out.new)) }
        ensures begun { OnErr result (BreaksBytes requests.now.entries self.old bytes.now
            (W.contents out.old) (W.contents out.new)) }
    {
        let (part, after) = cut(bytes, b'\n');
        self.read_part(part)?;
        let Some(rest) = after else {
            return Ok(None);
        };
        self.end_line(requests, notes, out)?;
        Ok(Some(rest))
    }

    /// Reads bytes without a line feed. If the first line gets too long, it is refused before its end.
    fn read_part(&mut self, part: &[u8]) -> Result<(), Refusal>
        ensures { OnOk result ((entries : List (Option Entry)) (telling : Telling) (read : List ℕ)
            (plan : List Planned)
            → LacksByte 10 part.now → Stands entries telling self.old read plan
            → Stands entries telling self.new (read ++ part.now) plan) }
    {
        let Ok(()) = self.line.push(part) else {
            return Err(Refusal::NoMemory);
        };
        // Such a line begins no device, so its end needn't come.
        if self.line.is_too_long && self.device.is_none() {
            return Err(Refusal::FleetLine);
        }
        Ok(())
    }

    /// Ends a line.
    fn end_line<W: Write, N: PlanNotes>(
        &mut self,
        requests: &Requests,
        notes: &mut N,
        out: &mut W,
    ) -> Result<(), Refusal>
        ensures feed { OnOk result (Advances requests.now.entries self.old self.new (10 ∷ [])
            (W.contents out.old) (W.contents out.new)) }
        ensures lines { OnOk result ((telling : Telling) (line : List ℕ) (lines : List (List ℕ))
            (plan : List Planned)
            → Holds line self.old.line → HasRead requests.now.entries telling self.old lines plan
            → ReadsLines requests.now.entries telling self.new (lines ++ line ∷ []) plan
            (W.contents out.old) (W.contents out.new)) }
        ensures begun { OnErr result (BreaksLine requests.now.entries self.old
            (W.contents out.old) (W.contents out.new)) }
    {
        self.take_line(requests, notes, out)?;
        self.line.clear();
        Ok(())
    }

    /// Starts a device, or extends its table.
    fn take_line<W: Write, N: PlanNotes>(
        &mut self,
        requests: &Requests,
        notes: &mut N,
        out: &mut W,
    ) -> Result<(), Refusal>
        ensures lines { OnOk result ((telling : Telling) (line : List ℕ) (lines : List (List ℕ))
            (plan : List Planned)
            → Holds line self.old.line → HasRead requests.now.entries telling self.old lines plan
            → ReadsLines requests.now.entries telling self.new (lines ++ line ∷ []) plan
            (W.contents out.old) (W.contents out.new)) }
        ensures some { OnOk result (self.new.device ≢ None) }
        ensures begun { OnErr result (BreaksLine requests.now.entries self.old
            (W.contents out.old) (W.contents out.new)) }
    {
        if begins_device(&self.line) {
            self.next_device(requests, notes, out)
        } else {
            self.add_line()
        }
    }

    /// Ends the device whose table is read, and begins that of the line.
    fn next_device<W: Write, N: PlanNotes>(
        &mut self,
        requests: &Requests,
        notes: &mut N,
        out: &mut W,
    ) -> Result<(), Refusal>
        ensures lines { OnOk result ((telling : Telling) (line name : List ℕ) (lines : List (List ℕ))
            (plan : List Planned)
            → Holds line self.old.line → BeginsDevice line name
            → HasRead requests.now.entries telling self.old lines plan
            → ReadsLines requests.now.entries telling self.new (lines ++ line ∷ []) plan
            (W.contents out.old) (W.contents out.new)) }
        ensures some { OnOk result (self.new.device ≢ None) }
        ensures begun { OnErr result ((telling : Telling) (lines rest : List (List ℕ))
            (plan : List Planned)
            → BeginsNext rest → HasRead requests.now.entries telling self.old lines plan
            → BreaksLines requests.now.entries telling (lines ++ rest) plan
            (W.contents out.old) (W.contents out.new)) }
    {
        self.end_device(requests, notes, out)?;
        self.begin_device()
    }

    /// Begins the device of the line.
    fn begin_device(&mut self) -> Result<(), Refusal>
        ensures lines { OnOk result ((entries : List (Option Entry)) (telling : Telling)
            (line name : List ℕ) (lines : List (List ℕ)) (plan : List Planned)
            → Holds line self.old.line → BeginsDevice line name
            → self.old.device ≡ None → HasRead entries telling self.old lines plan
            → HasRead entries telling self.new (lines ++ line ∷ []) plan) }
        ensures some { OnOk result (self.new.device ≢ None) }
    {
        let mut device = match self.spare.take() {
            Some(spare) => spare,
            None => Current::new(self.alloc),
        };
        device.begin(&self.line.bytes)?;
        self.device = Some(device);
        Ok(())
    }

    /// Adds the line to the table of the device.
    fn add_line(&mut self) -> Result<(), Refusal>
        ensures lines { OnOk result ((entries : List (Option Entry)) (telling : Telling)
            (line : List ℕ) (lines : List (List ℕ)) (plan : List Planned)
            → Holds line self.old.line → BeginsNone line → HasRead entries telling self.old lines plan
            → HasRead entries telling self.new (lines ++ line ∷ []) plan) }
        ensures some { OnOk result (self.new.device ≢ None) }
    {
        match &mut self.device {
            Some(device) => device.add_line(&self.line),
            None => Err(Refusal::FleetLine),
        }
    }

    /// Ends the device whose table is read, if there is one, and writes it with its result.
    fn end_device<W: Write, N: PlanNotes>(
        &mut self,
        requests: &Requests,
        notes: &mut N,
        out: &mut W,
    ) -> Result<(), Refusal>
        ensures none { OnOk result (self.new.device ≡ None) }
        ensures line { OnOk result (self.new.line ≡ self.old.line) }
        ensures lines { OnOk result ((telling : Telling) (lines : List (List ℕ)) (plan : List Planned)
            → HasRead requests.now.entries telling self.old lines plan
            → ReadsLines requests.now.entries telling self.new lines plan
            (W.contents out.old) (W.contents out.new)) }
        ensures begun { OnErr result ((telling : Telling) (lines rest : List (List ℕ))
            (plan : List Planned)
            → BeginsNext rest → HasRead requests.now.entries telling self.old lines plan
            → BreaksLines requests.now.entries telling (lines ++ rest) plan
            (W.contents out.old) (W.contents out.new)) }
    {
        let Some(device) = self.device.take() else {
            return Ok(());
        };
        let outcome = outcome_of(requests, &device.table, &mut self.table);
        tell(self.alloc, &mut self.told, &device, &outcome, notes, out)?;
        self.has_bad = self.has_bad || outcome.is_bad();
        self.spare = Some(device);
        Ok(())
    }
}

/// Writes a device with its result and the notes on it, or adds it to the summary.
fn tell<W: Write, N: PlanNotes>(
    alloc: Global,
    told: &mut Told,
    device: &Current,
    outcome: &Outcome,
    notes: &mut N,
    out: &mut W,
) -> Result<(), Refusal>
    ensures tells { OnOk result ((texts : List (List ℕ)) × ((planned : Planned)
        → IsReadSoFar planned.device device.now → outcome.now ≡ planned.outcome
        → planned.notes ≡ texts
        → Tells planned told.old told.new (W.contents out.old) (W.contents out.new))) }
    ensures begun { OnErr result ((texts : List (List ℕ)) × ((planned : Planned)
        → IsReadSoFar planned.device device.now → outcome.now ≡ planned.outcome
        → planned.notes ≡ texts
        → TellsPart planned told.old (W.contents out.old) (W.contents out.new))) }
{
    match told {
        Told::Written(form) => write_result(alloc, *form, device.name(), outcome, notes, out),
        Told::Counted(_, summary) => summarize(summary, device, outcome),
    }
}

/// Adds a device with its result to a summary.
fn summarize(summary: &mut Summary, device: &Current, outcome: &Outcome) -> Result<(), Refusal>
    ensures { OnOk result ((planned : Planned) (plan : List Planned)
        → IsReadSoFar planned.device device.now → outcome.now ≡ planned.outcome
        → Summarizes plan summary.old → Summarizes (plan ++ planned ∷ []) summary.new) }
{
    let Ok(()) = summary.add(device.name(), outcome) else {
        return Err(Refusal::NoMemory);
    };
    Ok(())
}

/// Appends a line and its line feed to a text.
fn push_line(text: &mut Vec<u8>, line: &[u8]) -> Result<(), AllocError>
    ensures { OnOk result (text.new.items ≡ text.old.items ++ (line.now ++ 10 ∷ [])) }
{
    text.extend_from_slice(line)?;
    text.push(b'\n')?;
    Ok(())
}

/// Returns a line without its line feed.
fn without_feed(line: &[u8]) -> &[u8]
    ensures { (text : List ℕ) → line.now ≡ text ++ 10 ∷ [] → result.now ≡ text }
{
    match line.strip_suffix(b"\n") {
        Some(text) => text,
        None => line,
    }
}
