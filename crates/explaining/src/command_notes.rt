//! Collects the notes on the answer of a command while it runs.

use crate::device_files::explain_map;
use crate::ends::explain_refusal;
use crate::image_files::ImageFiles;
use crate::inspections::explain_inspection;
use crate::needs::explain_running;
use crate::new_files::{explain_body, explain_components, explain_new_device, explain_new_image};
use crate::replies::ReplyNotes;
use crate::resting_tables::resting_table;
use crate::slots::{explain_slot, slot_of};
use crate::{Result, add_all, write_notes};
use command_line::Order;
use device_texts::{DeviceFile, NoteList};
use host::{Answer, Refusal, Source};
use inputs::{BadMap, Notes};
use inspecting::Inspection;
use machine::{Event, Reply};
use reports::Table;
use sector_map::{SectorMap, Side};
use std::alloc::Global;
use std::io::Write;

/// The notes on a command. It hands over what it finds in its inputs. If no notes are wanted, nothing
/// is made of that, and there are none.
#[derive(Drop)]
pub struct CommandNotes {
    alloc: Global,
    /// Whether notes are wanted.
    are_wanted: bool,
    /// The notes on the answer or the error.
    list: NoteList,
    /// The device.
    device: Option<DeviceFile>,
    /// The files of the images.
    files: ImageFiles,
    /// The running images of a device at rest, before its run.
    running: Option<Table>,
    /// The notes on the replies of a run.
    replies: ReplyNotes,
    /// The notes for the answer `Done`.
    if_done: NoteList,
    /// The notes for the answer `Refused`.
    if_refused: NoteList,
}

impl CommandNotes {
    /// No input is handed over yet. The notes are made in memory of `alloc`, which also holds JSON
    /// values, a flash, and the bytes of open uploads.
    pub fn new(alloc: Global, are_wanted: bool) -> Self {
        CommandNotes {
            alloc,
            are_wanted,
            list: NoteList::new(alloc),
            device: None,
            files: ImageFiles::new(),
            running: None,
            replies: ReplyNotes::new(alloc),
            if_done: NoteList::new(alloc),
            if_refused: NoteList::new(alloc),
        }
    }

    /// Returns the notes on the answer or the error.
    pub fn list(&self) -> &NoteList {
        &self.list
    }

    /// Returns whether notes are wanted.
    pub fn are_wanted(&self) -> bool {
        self.are_wanted
    }

    /// Adds why the command has this answer: why it is refused, or which inputs may be others than was
    /// meant. If memory runs out, the notes so far stay.
    pub fn on_answer(&mut self, answer: Answer) {
        if self.are_wanted {
            let _ = self.explain_answer(answer);
        }
    }

    /// Adds why an order to make a file has this answer, as [`CommandNotes::on_answer`] does, and
    /// which of its arguments can't be.
    pub fn on_made(&mut self, order: &Order<'_>, answer: Answer) {
        if self.are_wanted && matches!(answer, Answer::Refused) {
            let _ = self.explain_arguments(order);
        }
        self.on_answer(answer);
    }

    /// Adds why a read-only command finds this. If memory runs out, the notes so far stay.
    pub fn on_inspection(&mut self, found: &Inspection) {
        if self.are_wanted {
            let _ = explain_inspection(&mut self.list, self.alloc, found);
        }
    }

    /// Has only notes on why the command of an order ended with this refusal: an answer with notes isn't
    /// written then. If memory runs out, the notes so far stay.
    pub fn on_refusal(&mut self, order: &Order<'_>, refusal: &Refusal) {
        self.list.sentences.clear();
        if self.are_wanted {
            let _ = explain_refusal(&mut self.list, self.alloc, order, refusal);
        }
    }

    fn explain_answer(&mut self, answer: Answer) -> Result {
        match answer {
            Answer::Done => add_all(&mut self.list, &self.if_done),
            Answer::Refused => {
                add_all(&mut self.list, &self.if_refused)?;
                self.files.explain(&mut self.list)?;
                match &self.running {
                    Some(table) => explain_running(&mut self.list, table),
                    None => Ok(()),
                }
            }
            Answer::Cut => Ok(()),
        }
    }

    /// Adds which arguments of a refused order can't be.
    fn explain_arguments(&mut self, order: &Order<'_>) -> Result {
        match (order, &self.device) {
            (Order::MakeDevice { device }, _) => explain_new_device(&mut self.list, device),
            (Order::MakeImage { values, .. }, _) => explain_new_image(&mut self.list, values),
            (Order::MakeManifest { manifest, .. }, Some(device)) => {
                explain_components(&mut self.list, device, manifest)
            }
            _ => Ok(()),
        }
    }
}

// If memory runs out in one of these calls, the notes so far stay.
impl Notes for CommandNotes {
    fn device(&mut self, device: &DeviceFile) {
        self.device = Some(*device);
    }

    fn bad_map(&mut self, bad: &BadMap) {
        if self.are_wanted {
            let _ = explain_map(&mut self.if_refused, self.alloc, &bad.text, bad.fault);
        }
    }

    fn image(&mut self, source: Source<'_>, bytes: &[u8]) {
        if self.are_wanted {
            let (done, refused) = (&mut self.if_done, &mut self.if_refused);
            let _ = self.files.add(done, refused, source, bytes);
        }
    }

    fn body(&mut self, source: Source<'_>, bytes: &[u8]) {
        if self.are_wanted {
            let _ = explain_body(&mut self.if_done, source, bytes);
        }
    }

    fn damaged(&mut self, map: &SectorMap, flash: &[u8], image: u8, side: Side) {
        if self.are_wanted {
            let slot = slot_of(map, flash, image, side);
            let _ = explain_slot(&mut self.if_refused, slot, image, side);
        }
    }

    fn begin(&mut self, device: &DeviceFile, flash: &[u8]) {
        if !self.are_wanted {
            return;
        }
        if let Ok(table) = resting_table(self.alloc, &device.map, flash) {
            self.running = table;
        }
        self.replies.begin(device, flash);
    }

    fn tell(&mut self, _: usize, event: &Event<Vec<u8>>, reply: &Reply, told: &mut NoteList) {
        if self.are_wanted {
            let _ = self.replies.explain(told, event, reply);
        }
    }
}

/// The notes on a command whose notes on replies are written to standard error, each after its reply.
#[derive(Drop)]
pub struct WrittenNotes<'n, 'e, E> {
    /// The memory for the notes on a reply.
    pub alloc: Global,
    /// The notes on the command.
    pub notes: &'n mut CommandNotes,
    /// The writer to standard error.
    pub err: &'e mut E,
}

impl<E: Write> Notes for WrittenNotes<'_, '_, E> {
    fn device(&mut self, device: &DeviceFile) {
        self.notes.device(device);
    }

    fn bad_map(&mut self, bad: &BadMap) {
        self.notes.bad_map(bad);
    }

    fn image(&mut self, source: Source<'_>, bytes: &[u8]) {
        self.notes.image(source, bytes);
    }

    fn body(&mut self, source: Source<'_>, bytes: &[u8]) {
        self.notes.body(source, bytes);
    }

    fn damaged(&mut self, map: &SectorMap, flash: &[u8], image: u8, side: Side) {
        self.notes.damaged(map, flash, image, side);
    }

    fn begin(&mut self, device: &DeviceFile, flash: &[u8]) {
        self.notes.begin(device, flash);
    }

    /// Writes why the event of this number has this reply, if there is a note on it. Adds none.
    fn tell(&mut self, number: usize, event: &Event<Vec<u8>>, reply: &Reply, _: &mut NoteList) {
        let mut told = NoteList::new(self.alloc);
        self.notes.tell(number, event, reply, &mut told);
        if !told.is_empty() {
            // The notes are no part of the answer, so a failed write changes nothing.
            let _ = writeln!(self.err, "note: of reply {number}:");
            write_notes(self.alloc, &told, self.err);
        }
    }
}
