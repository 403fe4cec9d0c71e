// Bytes at offsets, over sectors.
ghost use Rattle.std.specs.Prelude.{◌≡◌, ◌⊎◌, ℕ, ◌+◌, ◌*◌, ◌<◌, ◌≤◌, List, ◌∷◌, length, IfOk, OnOk, OnErr, slice_index, slice_index_or, []};
ghost use Rattle.pcm_io.specs.Faults.{Rose};
ghost use Rattle.atomic_sectors.specs.Lines.{Write, stand};
ghost use Rattle.atomic_sectors.specs.Moments.{AtEachMoment};
ghost use Rattle.atomic_sectors.specs.Sectors.{Fits, Have, IsWhole, IsBeforeOrAfter, sector_line, with_sector};
ghost use Rattle.disk_rules.specs.Disk.{Written, IsPart, refusal};
ghost use Rattle.disk_rules.specs.Pieces.{byte_in};
ghost use Rattle.disk_rules.specs.Standing.{HoldsDisk, byte_of, disk_size, sector_size};
ghost use Rattle.disk_bytes.specs.Parts.{IsReady, HasPart, Patches, part, next_part};

use crate::copying::{fetch, lay};
use crate::pieces::{Piece, first_piece};
use atomic_sectors::{Layout, Lines, Sectors, Stopped, opened};
use disk_rules::{DiskRefusal, pieces_make_a_write};
use std::alloc::{AllocError, Global};

/// A disk: how its sectors lie on lines, what is known of them, and room for the lines of one.
#[derive(Drop)]
pub struct Disk<const B: usize> {
    pub layout: Layout,
    pub known: Option<Sectors>,
    pub room: Vec<[u8; B]>,
}

impl<const B: usize> Disk<B> {
    /// A disk of whose sectors nothing is known yet.
    pub fn new(alloc: Global, layout: Layout) -> Result<Disk<B>, AllocError>
        requires short { B ≤ 128 }
        ensures layout { IfOk result (λ disk. disk.layout ≡ layout) }
        ensures ready { IfOk result (λ disk. (writes : List Write)
            → IsWhole B layout (stand B writes) → IsReady B writes disk) }
    {
        Ok(Disk {
            layout,
            known: None,
            room: vec![in alloc; [0; B]; layout.block as usize]?,
        })
    }

    // Reads a sector into the room.
    fn read_sector<L: Lines<B>>(&mut self, lines: &mut L, sector: u32) -> Result<(), Stopped>
        requires fits { Fits B self.old.layout (L.count (L.kind lines.old)) }
        requires ready { IsReady B (L.made lines.old) self.old }
        requires exists { sector < self.old.layout.sectors }
        ensures read { OnOk result ((i : ℕ) → i < self.old.layout.block
            → slice_index_or self.new.room.items i []
            ≡ sector_line B self.old.layout (stand B (L.made lines.old)) sector i) }
        ensures ready { IsReady B (L.made lines.old) self.new }
        ensures layout { self.new.layout ≡ self.old.layout }
        ensures made { L.made lines.new ≡ L.made lines.old }
        ensures cause { OnErr result (Rose (L.stops lines.old) (L.stops lines.new)) }
        ensures never_falls { L.stops lines.old ≤ L.stops lines.new }
        ensures kind { L.kind lines.new ≡ L.kind lines.old }
    {
        let sectors = opened(self.layout, lines, self.known)?;
        self.known = Some(sectors);
        sectors.read(lines, sector, self.room.as_mut_slice())
    }

    // Writes the sector that is in the room.
    fn write_sector<L: Lines<B>>(&mut self, lines: &mut L, sector: u32) -> Result<(), Stopped>
        requires fits { Fits B self.old.layout (L.count (L.kind lines.old)) }
        requires ready { IsReady B (L.made lines.old) self.old }
        requires exists { sector < self.old.layout.sectors }
        ensures written { OnOk result (Have B self.old.layout (stand B (L.made lines.new))
            (with_sector sector self.old.room.items
            (sector_line B self.old.layout (stand B (L.made lines.old))))) }
        ensures moments { AtEachMoment
            (IsBeforeOrAfter B self.old.layout sector self.old.room.items (L.made lines.old))
            (L.made lines.old) (L.made lines.new) }
        ensures ready { IsReady B (L.made lines.new) self.new }
        ensures layout { self.new.layout ≡ self.old.layout }
        ensures cause { OnErr result (Rose (L.stops lines.old) (L.stops lines.new)) }
        ensures never_falls { L.stops lines.old ≤ L.stops lines.new }
        ensures kind { L.kind lines.new ≡ L.kind lines.old }
    {
        let mut sectors = opened(self.layout, lines, self.known)?;
        self.known = None;
        sectors.write(lines, sector, self.room.as_slice())?;
        self.known = Some(sectors);
        Ok(())
    }

    // Reads the sector of a piece into the room, where the piece doesn't give all of its bytes.
    fn read_rest<L: Lines<B>>(&mut self, lines: &mut L, piece: Piece) -> Result<(), Stopped>
        requires fits { Fits B self.old.layout (L.count (L.kind lines.old)) }
        requires ready { IsReady B (L.made lines.old) self.old }
        requires exists { piece.sector < self.old.layout.sectors }
        requires inside { piece.begin + piece.size ≤ sector_size B self.old.layout }
        ensures rest { OnOk result ((y : ℕ) → y < sector_size B self.old.layout
            → (y < piece.begin) ⊎ (piece.begin + piece.size ≤ y)
            → byte_in B self.new.room.items y
            ≡ byte_of B self.old.layout (stand B (L.made lines.old))
            (piece.sector * sector_size B self.old.layout + y)) }
        ensures ready { IsReady B (L.made lines.old) self.new }
        ensures layout { self.new.layout ≡ self.old.layout }
        ensures made { L.made lines.new ≡ L.made lines.old }
        ensures cause { OnErr result (Rose (L.stops lines.old) (L.stops lines.new)) }
        ensures never_falls { L.stops lines.old ≤ L.stops lines.new }
        ensures kind { L.kind lines.new ≡ L.kind lines.old }
    {
        if piece.size < self.layout.block as usize * B {
            self.read_sector(lines, piece.sector)
        } else {
            Ok(())
        }
    }

    // Puts together in the room what the sector of a piece is to have: its bytes with those of the
    // piece, which are so many from a place on.
    fn patch<L: Lines<B>>(
        &mut self,
        lines: &mut L,
        piece: Piece,
        bytes: &[u8],
        done: usize,
    ) -> Result<(), Stopped>
        requires fits { Fits B self.old.layout (L.count (L.kind lines.old)) }
        requires ready { IsReady B (L.made lines.old) self.old }
        requires exists { piece.sector < self.old.layout.sectors }
        requires inside { piece.begin + piece.size ≤ sector_size B self.old.layout }
        requires given { done + piece.size ≤ length bytes.now }
        ensures patched { OnOk result (Patches B self.old.layout (stand B (L.made lines.old)) piece
            bytes.now done self.new.room.items) }
        ensures ready { IsReady B (L.made lines.old) self.new }
        ensures layout { self.new.layout ≡ self.old.layout }
        ensures made { L.made lines.new ≡ L.made lines.old }
        ensures cause { OnErr result (Rose (L.stops lines.old) (L.stops lines.new)) }
        ensures never_falls { L.stops lines.old ≤ L.stops lines.new }
        ensures kind { L.kind lines.new ≡ L.kind lines.old }
    {
        self.read_rest(lines, piece)?;
        lay(
            self.room.as_mut_slice(),
            piece.begin,
            bytes,
            done,
            piece.size,
        );
        Ok(())
    }

    /// Reads bytes from an offset on. Where it is stopped, some of them may have changed.
    pub fn read<L: Lines<B>>(
        &mut self,
        lines: &mut L,
        at: u64,
        to: &mut [u8],
    ) -> Result<(), Stopped>
        requires fits { Fits B self.old.layout (L.count (L.kind lines.old)) }
        requires ready { IsReady B (L.made lines.old) self.old }
        requires within { at + length to.old ≤ disk_size B self.old.layout }
        ensures read { OnOk result ((i : ℕ) → i < length to.old → slice_index to.new i
            ≡ byte_of B self.old.layout (stand B (L.made lines.old)) (at + i)) }
        ensures length { length to.new ≡ length to.old }
        ensures ready { IsReady B (L.made lines.old) self.new }
        ensures layout { self.new.layout ≡ self.old.layout }
        ensures made { L.made lines.new ≡ L.made lines.old }
        ensures cause { OnErr result (Rose (L.stops lines.old) (L.stops lines.new)) }
        ensures never_falls { L.stops lines.old ≤ L.stops lines.new }
        ensures kind { L.kind lines.new ≡ L.kind lines.old }
    {
        let mut done = 0;
        while done < to.len() {
            let piece = first_piece::<B>(self.layout, at + done as u64, to.len() - done);
            self.read_sector(lines, piece.sector)?;
            fetch(self.room.as_slice(), piece.begin, to, done, piece.size);
            done += piece.size;
        }
        Ok(())
    }

    // Goes on with a write of which so many bytes are done, to the end of the next sector, and
    // answers how many are done then.
    fn write_piece<L: Lines<B>>(
        &mut self,
        lines: &mut L,
        at: u64,
        bytes: &[u8],
        done: usize,
    ) -> Result<usize, Stopped>
        requires fits { Fits B self.old.layout (L.count (L.kind lines.old)) }
        requires ready { IsReady B (L.made lines.old) self.old }
        requires within { at + length bytes.now ≤ disk_size B self.old.layout }
        requires left { done < length bytes.now }
        ensures next { IfOk result (λ next. next
            ≡ next_part (sector_size B self.old.layout) at (length bytes.now) done) }
        ensures written { OnOk result ((before : List Written)
            → HoldsDisk B self.old.layout (stand B (L.made lines.old))
            (part at bytes.now done ∷ before)
            → HoldsDisk B self.old.layout (stand B (L.made lines.new))
            (part at bytes.now (next_part (sector_size B self.old.layout) at
            (length bytes.now) done) ∷ before)) }
        ensures moments { (before : List Written)
            → IsPart (sector_size B self.old.layout) (part at bytes.now done)
            → HoldsDisk B self.old.layout (stand B (L.made lines.old))
            (part at bytes.now done ∷ before)
            → AtEachMoment (HasPart B self.old.layout at bytes.now before)
            (L.made lines.old) (L.made lines.new) }
        ensures ready { IsReady B (L.made lines.new) self.new }
        ensures layout { self.new.layout ≡ self.old.layout }
        ensures cause { OnErr result (Rose (L.stops lines.old) (L.stops lines.new)) }
        ensures never_falls { L.stops lines.old ≤ L.stops lines.new }
        ensures kind { L.kind lines.new ≡ L.kind lines.old }
    {
        pieces_make_a_write();
        let piece = first_piece::<B>(self.layout, at + done as u64, bytes.len() - done);
        self.patch(lines, piece, bytes, done)?;
        self.write_sector(lines, piece.sector)?;
        Ok(done + piece.size)
    }

    /// Writes bytes from an offset on: all of them or, where it is stopped, some first ones, up to
    /// the end of a sector. Each sector is whole.
    pub fn write<L: Lines<B>>(
        &mut self,
        lines: &mut L,
        at: u64,
        bytes: &[u8],
    ) -> Result<(), Stopped>
        requires fits { Fits B self.old.layout (L.count (L.kind lines.old)) }
        requires ready { IsReady B (L.made lines.old) self.old }
        requires within { at + length bytes.now ≤ disk_size B self.old.layout }
        ensures written { OnOk result ((before : List Written)
            → HoldsDisk B self.old.layout (stand B (L.made lines.old)) before
            → HoldsDisk B self.old.layout (stand B (L.made lines.new))
            (part at bytes.now (length bytes.now) ∷ before)) }
        ensures moments { (before : List Written)
            → HoldsDisk B self.old.layout (stand B (L.made lines.old)) before
            → AtEachMoment (HasPart B self.old.layout at bytes.now before)
            (L.made lines.old) (L.made lines.new) }
        ensures ready { IsReady B (L.made lines.new) self.new }
        ensures layout { self.new.layout ≡ self.old.layout }
        ensures cause { OnErr result (Rose (L.stops lines.old) (L.stops lines.new)) }
        ensures never_falls { L.stops lines.old ≤ L.stops lines.new }
        ensures kind { L.kind lines.new ≡ L.kind lines.old }
    {
        let mut done = 0;
        while done < bytes.len() {
            done = self.write_piece(lines, at, bytes, done)?;
        }
        Ok(())
    }

    /// How many bytes it has.
    pub fn size<L: Lines<B>>(&self, lines: &L) -> u64
        requires fits { Fits B self.now.layout (L.count (L.kind lines.now)) }
        ensures { result ≡ disk_size B self.now.layout }
    {
        u64::from(self.layout.sectors) * (u64::from(self.layout.block) * B as u64)
    }

    /// Why so many bytes from an offset on can't be asked of it, if they can't.
    pub fn refusal<L: Lines<B>>(&self, lines: &L, at: u64, asked: u64) -> Option<DiskRefusal>
        requires fits { Fits B self.now.layout (L.count (L.kind lines.now)) }
        ensures { result ≡ refusal (disk_size B self.now.layout) at asked }
    {
        let size = self.size(lines);
        if asked == 0 {
            Some(DiskRefusal::Empty)
        } else if at > size || asked > size - at {
            Some(DiskRefusal::Outside)
        } else {
            None
        }
    }
}
