//! Writes bytes at a place of a buffer.

ghost use Rattle.std.specs.Prelude.{replicate};
ghost use Rattle.tlv.specs.Writing.{PutsAfter};

/// Writes bytes at a place of a buffer, if they fit, and returns the place after them.
pub fn put(buffer: &mut [u8], place: usize, bytes: &[u8]) -> usize
    ensures { PutsAfter place buffer.old bytes.now result buffer.new }
{
    if place > buffer.len() || bytes.len() > buffer.len() - place {
        return place;
    }
    let end = place + bytes.len();
    buffer[place..end].copy_from_slice(bytes);
    end
}

/// Writes zero bytes at a place of a buffer, if they fit, and returns the place after them.
pub fn put_zeros(buffer: &mut [u8], place: usize, count: usize) -> usize
    ensures { PutsAfter place buffer.old (replicate count 0) result buffer.new }
{
    if place > buffer.len() || count > buffer.len() - place {
        return place;
    }
    let end = place + count;
    buffer[place..end].fill(0);
    end
}
