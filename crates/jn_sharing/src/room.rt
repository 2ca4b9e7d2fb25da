//! Memory asked of the system ahead, so that workers that build trees or bodies don't wait for each other there.
//!
//! Where several threads take memory bit by bit, the C library's heap asks the system for each page of theirs, and no two of a
//! process's threads are served at once; and what is given back in large pieces goes to the system, which clears it before it
//! comes again. So a piece as large as what is going to be needed is asked for once and given back at once: the heap keeps it,
//! and hands it out bit by bit. Nothing here changes what a program computes, and where there is no such memory, it goes on
//! without. A page that nobody writes to takes no memory.

use std::alloc::Global;

/// The greatest piece asked for, in bytes. The C library (glibc) keeps pieces of up to 32 MiB, once one as large was given back.
const GREATEST: usize = 25_165_824;

/// Asks for a piece of so many bytes, or of 24 MiB where that is less, and gives it back.
pub fn make_room(alloc: Global, bytes: usize) {
    let mut room: Vec<u8> = Vec::new(alloc);
    let _asked = room.reserve(bytes.min(GREATEST));
}

/// Has pieces of up to 24 MiB that are given back from now on kept for this thread, as well as room for that much.
pub fn keep_pieces(alloc: Global) {
    make_room(alloc, GREATEST);
    make_room(alloc, GREATEST);
}
