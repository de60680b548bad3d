//! The events of a device.

ghost use Rattle.std.specs.Prelude.{◌≡◌};
ghost use Rattle.machine.specs.Event.{event_map};

use std::alloc::Allocator;

/// An event: what happens to a device.
///
/// Images are numbered from 0. An event may have any number, even if the device has no such image.
/// `B` is the type of the bytes of a manifest or of a piece: the bytes themselves, or something
/// that names them.
#[derive(Clone, Debug, Drop, PartialEq, Eq)]
pub enum Event<B> {
    /// A manifest is received: these are the bytes of its JSON text.
    Accept(B),
    /// A piece of an image's upload is received: the bytes that follow the previous pieces.
    Piece(u8, B),
    /// The upload of an image is to be finished: its image is to be requested.
    Finish(u8),
    /// The request for an image is to be withdrawn.
    Withdraw(u8),
    /// An image of the set on trial is confirmed.
    Confirm(u8),
    /// The device boots.
    Boot,
    /// The device is reset: it isn't booted until the next [`Boot`](Event::Boot).
    Reset,
}

impl<T, A: Allocator> Event<Vec<T, A>> {
    /// Returns the same event, with its bytes borrowed.
    pub fn as_deref(&self) -> Event<&[T]>
        ensures { event_map (λ slice. slice.now) result
            ≡ event_map (λ vec. vec.items) self.now }
    {
        match self {
            Event::Accept(bytes) => Event::Accept(bytes),
            Event::Piece(image, bytes) => Event::Piece(*image, bytes),
            Event::Finish(image) => Event::Finish(*image),
            Event::Withdraw(image) => Event::Withdraw(*image),
            Event::Confirm(image) => Event::Confirm(*image),
            Event::Boot => Event::Boot,
            Event::Reset => Event::Reset,
        }
    }
}
