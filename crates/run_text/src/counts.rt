// How many rows had each outcome.
ghost use Rattle.std.specs.Prelude.{◌≡◌, ◌<◌, ◌≤◌, nat_lt};
ghost use Rattle.run_text.specs.Counting.{counts_of, with_one};
ghost use Rattle.run_text.specs.Laws.{rows_counted, rows_short};

use result_rows::{Outcome, Results};

/// The number of rows that had each outcome.
#[derive(Clone, Copy, PartialEq, Eq)]
pub struct OutcomeCounts {
    pub stored: u32,
    pub merged: u32,
    pub queued: u32,
    pub full: u32,
    pub worn: u32,
    pub read: u32,
    pub forwarded: u32,
    pub busy: u32,
    pub lost: u32,
    pub cut: u32,
}

impl OutcomeCounts {
    /// Nothing is counted yet.
    pub fn none() -> OutcomeCounts
        ensures { result ≡ record {
          stored = 0;
          merged = 0;
          queued = 0;
          full = 0;
          worn = 0;
          read = 0;
          forwarded = 0;
          busy = 0;
          lost = 0;
          cut = 0;
        } }
    {
        OutcomeCounts {
            stored: 0,
            merged: 0,
            queued: 0,
            full: 0,
            worn: 0,
            read: 0,
            forwarded: 0,
            busy: 0,
            lost: 0,
            cut: 0,
        }
    }

    /// The counts of a table. A row that isn't set is counted nowhere.
    pub fn of<const B: usize>(results: &Results<B>) -> OutcomeCounts
        requires { B ≤ 128 }
        ensures { result ≡ counts_of results.now }
    {
        let mut counts = OutcomeCounts::none();
        for before in 0..results.rows() {
            counts.count(results.get(before + 1));
        }
        counts
    }

    /// Counts one outcome more.
    pub fn count<const B: usize>(&mut self, outcome: &Outcome<B>)
        requires { rows_counted self.old < 4294967295 }
        ensures { self.new ≡ with_one self.old outcome.now }
    {
        match outcome {
            Outcome::Unset => {}
            Outcome::Stored { .. } => self.stored += 1,
            Outcome::Merged { .. } => self.merged += 1,
            Outcome::Queued { .. } => self.queued += 1,
            Outcome::Full { .. } => self.full += 1,
            Outcome::Worn { .. } => self.worn += 1,
            Outcome::Read { .. } => self.read += 1,
            Outcome::Forwarded { .. } => self.forwarded += 1,
            Outcome::Busy { .. } => self.busy += 1,
            Outcome::Lost { .. } => self.lost += 1,
            Outcome::Cut { .. } => self.cut += 1,
        }
    }

    /// Whether a row that was counted falls short of what it asks for.
    pub fn any_short(&self) -> bool
        ensures { result ≡ nat_lt 0 (rows_short self.now) }
    {
        self.queued > 0 || self.full > 0 || self.worn > 0 || self.busy > 0 || self.lost > 0
    }
}
