//! The image of a module: what its banks keep, and what the cells of its array hold, as bytes.
//! Bytes are read exactly where they spell a module, and what is read is spelled by them alone.
#![tactic(auto)]

pub mod fields;
mod formats;
mod image;
mod parts;
pub mod standing;
mod writing;

pub use fields::{HeadImage, ReadImage};
pub use image::{BankImage, Image};
pub use parts::{banks_of, read_image, row_at, size_behind, size_of_line};
pub use writing::{
    write_bank, write_cells, write_count, write_entry, write_head, write_region, write_slot,
};

/// How an image is spelled.
#[derive(Clone, Copy, PartialEq, Eq)]
pub enum Format {
    /// As that of a small module: a number of lines has two bytes.
    Small,
    /// As that of a large module: it has four.
    Large,
}

/// The registers of a region, and its stores since the last move of its gap.
#[derive(Clone, Copy, PartialEq, Eq)]
pub struct RegionImage {
    /// Below the number of lines.
    pub start: u32,
    /// At most the number of lines.
    pub gap: u32,
    /// Stores since the gap last moved.
    pub counter: u16,
}

/// A write of a bank's queue: the line of the bank, and those of its bytes that it gives. A byte that isn't given is 0.
#[derive(Clone, Copy)]
pub struct EntryImage<const B: usize> {
    pub line: u32,
    pub bytes: [u8; B],
    pub given: [bool; B],
}

/// The first field that fails: its first byte, and how.
#[derive(Clone, Copy, PartialEq, Eq)]
pub struct ImageFault {
    pub at: u32,
    pub kind: ImageKind,
}

/// How a field fails.
#[derive(Clone, Copy, PartialEq, Eq)]
pub enum ImageKind {
    /// It doesn't fit into the bytes left.
    Short,
    /// The first eight bytes aren't those of an image.
    Magic,
    /// The size of a line isn't one of a module's, or isn't the one asked for.
    Size,
    /// A number breaks a limit of a module.
    Shape,
    /// A number of a bank is out of range.
    Bank,
    /// A line of an entry is out of range, or its given bits don't fit its bytes.
    Entry,
    /// The number of an array line is out of range or not above the one before it, or all its cells are 0: of the images of large modules
    /// alone, which have such numbers.
    Line,
    /// A byte follows the last field.
    Extra,
}
