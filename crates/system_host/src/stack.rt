//! Reserves the stack that the deepest command needs before the program does anything else.
//!
//! The system grows the stack as it is used. If it can't, it ends the program by a signal in the
//! middle of its work. Therefore the program makes sure that there is memory for the stack, or
//! reports that there is none, before it does anything.

use std::alloc::{AllocError, Global};

/// The pages of stack that are reserved: 768 KiB. The deepest command needs 408 KiB, as measured.
const PAGES: usize = 192;

/// The size of a page of memory, or of a part of one, in bytes.
const PAGE: usize = 1 << 12;

/// The memory in bytes that has to be free before the stack takes its pages: twice their size.
const MEMORY: usize = 2 * PAGES * PAGE;

/// The byte that is written to each page.
const MARK: u8 = 1;

/// Makes the system give the program the stack that it needs.
///
/// # Errors
/// There isn't that much memory.
pub fn reserve_stack(alloc: Global) -> Result<(), AllocError> {
    // The memory is freed before the stack takes it. If there is none, the system returns an error
    // here; when the stack grows it could only end the program.
    let marked = marked_in_memory(alloc)?;
    if marked_on_stack(PAGES, marked) < PAGES {
        return Err(AllocError);
    }
    Ok(())
}

/// Marks memory, frees it, and returns how many of its pages were marked.
#[inline(never)]
fn marked_in_memory(alloc: Global) -> Result<usize, AllocError> {
    let mut area = vec![in alloc; 0; MEMORY]?;
    mark(&mut area);
    Ok(marked_with(&area, 0))
}

/// Marks pages of the stack, one a call, so that the stack grows by them. Returns how many are
/// marked, including the `before` that were marked earlier. Each page is counted after those below
/// it are marked, so a compiler can't use one page for all calls.
#[inline(never)]
fn marked_on_stack(pages: usize, before: usize) -> usize {
    let mut area = [0; PAGE];
    mark(&mut area);
    let below = match pages {
        0 => before,
        _ => marked_on_stack(pages - 1, before),
    };
    marked_with(&area, below)
}

/// Marks each page of an area.
#[inline(never)]
fn mark(area: &mut [u8]) {
    for page in area.chunks_mut(PAGE) {
        page[0] = MARK;
    }
}

/// Returns how many pages are marked: those of an area and `others`.
#[inline(never)]
fn marked_with(area: &[u8], others: usize) -> usize {
    let marked = area.chunks(PAGE).filter(|page| page[0] == MARK).count();
    marked.saturating_add(others)
}
