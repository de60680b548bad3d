//! Explains the replies of a run.

use crate::Result;
use crate::faults::explain_state;
use crate::manifest_notes::explain_manifest;
use crate::needs::explain_refusals;
use crate::trials::Trials;
use crate::uploads::{UploadLog, explain_opening};
use device_texts::{DeviceFile, NoteList};
use machine::{Event, Fault, Reply};
use manifest::Manifest;
use std::alloc::Global;

/// Says why a run has its replies.
#[derive(Drop)]
pub struct ReplyNotes {
    alloc: Global,
    device: Option<DeviceFile>,
    uploads: UploadLog,
    trials: Trials,
}

impl ReplyNotes {
    /// The notes of a run. They are made in memory of `alloc`, which also holds JSON values and the
    /// bytes of open uploads.
    pub fn new(alloc: Global) -> Self {
        ReplyNotes {
            alloc,
            device: None,
            uploads: UploadLog::new(alloc),
            trials: Trials::default(),
        }
    }

    /// Begins a run on a device whose flash has these bytes.
    pub fn begin(&mut self, device: &DeviceFile, flash: &[u8]) {
        self.device = Some(*device);
        self.trials = Trials::on(&device.map, flash);
    }

    /// Adds why the event has this reply, and logs the bytes of the event for later notes.
    pub fn explain(
        &mut self,
        notes: &mut NoteList,
        event: &Event<Vec<u8>>,
        reply: &Reply,
    ) -> Result {
        let Some(device) = self.device else {
            return Ok(());
        };
        self.log_request(event, reply);
        match reply {
            Reply::Done => self.log_bytes(&device, event),
            Reply::Refused(fault) => self.explain_fault(notes, &device, event, *fault),
            Reply::Booted {
                table,
                report,
                permanent,
            } => {
                explain_refusals(notes, table, report)?;
                self.trials.begin(notes, report, *permanent)
            }
            Reply::Reverted(set) => self.trials.revert(notes, *set),
            Reply::TrialAgain { .. } | Reply::Cut => Ok(()),
        }
    }

    /// Logs the kind of the request after an upload was finished. If a power cut interrupted
    /// `finish`, the image may be requested too.
    fn log_request(&mut self, event: &Event<Vec<u8>>, reply: &Reply) {
        let Event::Finish(image) = event else {
            return;
        };
        if let Reply::Done | Reply::Cut = reply
            && let Some(permanent) = self.uploads.is_permanent(*image)
        {
            self.trials.request(*image, permanent);
        }
    }

    /// Logs the bytes of an event that was done.
    fn log_bytes(&mut self, device: &DeviceFile, event: &Event<Vec<u8>>) -> Result {
        match event {
            Event::Accept(text) => match Manifest::read(self.alloc, text, &device.identity) {
                Ok(manifest) => self.uploads.open(&manifest),
                Err(_) => Ok(()),
            },
            Event::Piece(image, bytes) => self.uploads.add(*image, bytes),
            _ => Ok(()),
        }
    }

    /// Adds why an event is refused.
    fn explain_fault(
        &mut self,
        notes: &mut NoteList,
        device: &DeviceFile,
        event: &Event<Vec<u8>>,
        fault: Fault,
    ) -> Result {
        explain_state(notes, device, event, fault)?;
        match (event, fault) {
            (Event::Accept(text), Fault::Manifest(_)) => {
                explain_manifest(notes, self.alloc, text, &device.identity)
            }
            (Event::Accept(text), Fault::Upload(error)) => {
                match Manifest::read(self.alloc, text, &device.identity) {
                    Ok(manifest) => explain_opening(notes, &device.map, &manifest, error),
                    Err(_) => Ok(()),
                }
            }
            (Event::Piece(image, bytes), Fault::Upload(error)) => {
                self.uploads.add(*image, bytes)?;
                self.uploads.explain(notes, *image, error)
            }
            (Event::Finish(image), Fault::Upload(error)) => {
                self.uploads.explain(notes, *image, error)
            }
            _ => Ok(()),
        }
    }
}
