//! What a disk is: bytes at offsets, by what it was asked for and what it answered; and the laws by
//! which sectors of lines are one. A law is what a function here ensures; the functions do nothing
//! when they run.
#![tactic(auto)]

ghost use Rattle.disk_rules.specs.Agreeing.{AgreeLaw, NewDiskLaw};
ghost use Rattle.disk_rules.specs.Pieces.{PieceLaw};

use atomic_sectors::Stopped;
use atomic_sectors::laws::new_lines_are_whole_sectors;

/// What a disk is asked for.
#[derive(Drop)]
pub enum DiskRequest {
    /// So many bytes, from an offset on.
    Read { at: u64, size: u32 },
    /// That these bytes are kept, from an offset on.
    Write { at: u64, bytes: Vec<u8> },
    /// That every write which was acknowledged outlives a power cut. It does as soon as it is
    /// acknowledged.
    Flush,
}

/// Why a request is refused, whatever the disk holds.
#[derive(Clone, Copy, Debug, PartialEq, Eq)]
pub enum DiskRefusal {
    /// It is of no bytes.
    Empty,
    /// It isn't all within the disk.
    Outside,
}

/// What a disk answers.
#[derive(Drop)]
pub enum DiskAnswer {
    /// It was done.
    Done,
    /// The bytes that were asked for.
    Bytes(Vec<u8>),
    /// Nothing was done, since there is no such request.
    Refused(DiskRefusal),
    /// It was stopped: of a write, some first bytes were written, up to the end of a sector.
    Stopped(Stopped),
}

/// A write of bytes that is made sector by sector is made byte by byte.
pub fn pieces_make_a_write()
    ensures { PieceLaw }
{}

/// Lines that agree are one disk: what is a disk by its rows is the same by what is left in the
/// array and the queues.
pub fn lines_that_agree_are_one_disk()
    ensures { AgreeLaw }
{}

/// A new disk is zeros.
pub fn new_lines_are_a_new_disk()
    ensures { NewDiskLaw }
{
    new_lines_are_whole_sectors();
}
