//! Lessons that are written to a device that fails after some bytes.

use peers_devices::{Counting, Faults};
use peers_engine::{Fused, PiecesError, WriteFault, write_lesson, write_pieces};
use std::alloc::Global;
use table_types::Batch;
use teach_writer::Pieces;
use tests_play_data::parts::{KnownParts, UpdateParts, known, updates};

/// A lesson that is written to a writer that fails after `room` bytes, what the call returns, and the bytes that were written.
pub struct Written {
    pub lesson: &'static [u8],
    pub room: usize,
    pub ends: Result<(), WriteFault>,
    pub written: &'static [u8],
}

fn is_written(alloc: Global, written: &Written) -> bool {
    let mut output = Counting::new(Fused::new(Vec::new(alloc), written.room));
    let ends = write_lesson(&mut output, written.lesson);
    let counts = output.failures() == if written.ends.is_ok() { 0 } else { 1 };
    let bytes = output.into_inner().into_inner();
    ends == written.ends && counts && bytes.as_slice() == written.written
}

/// Writes the lessons. Returns the index of the first that fails.
pub fn first_miswritten(alloc: Global, all: &[Written]) -> Option<usize> {
    for (place, written) in all.iter().enumerate() {
        if !is_written(alloc, written) {
            return Some(place);
        }
    }
    None
}

/// A known state, and updates whose lesson is written in pieces to a writer that fails after `room` bytes; the error, or `None` if
/// all is written; and how many bytes were written, and with which they begin.
pub struct InPieces {
    pub from: KnownParts,
    pub updates: &'static [UpdateParts],
    pub room: usize,
    pub error: Option<PiecesError>,
    pub count: usize,
    pub first: &'static [u8],
}

fn is_written_in_pieces(alloc: Global, row: &InPieces) -> Option<bool> {
    let known = known(alloc, &row.from)?;
    let batch = Batch::new(alloc, known.roster(), updates(alloc, row.updates)?).ok()?;
    let pieces = Pieces::new(alloc, &known, &batch).ok()?;
    let mut output = Counting::new(Fused::new(Vec::new(alloc), row.room));
    let error = write_pieces(alloc, &mut output, pieces).err();
    let bytes = output.into_inner().into_inner();
    Some(error == row.error && bytes.len() == row.count && bytes.starts_with(row.first))
}

/// Writes the lessons in pieces. Returns the index of the first that fails.
pub fn first_miswritten_in_pieces(alloc: Global, rows: &[InPieces]) -> Option<usize> {
    for (place, row) in rows.iter().enumerate() {
        if is_written_in_pieces(alloc, row) != Some(true) {
            return Some(place);
        }
    }
    None
}
