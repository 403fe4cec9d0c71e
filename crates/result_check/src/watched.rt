//! What is kept of a bank, with a tick below which nothing of it ends, so that a bank that nothing leaves is settled at once, and
//! with the number of members that have a later one of their line, so that none is sought where there is none.

ghost use Rattle.std.specs.Prelude.{◌≡◌, ◌<◌, ◌^◌, ◌-◌, IfOk};
ghost use Rattle.check_verdict.specs.Banks.{facts_of};
ghost use Rattle.check_verdict.specs.Fitting.{room_kept};
ghost use Rattle.check_verdict.specs.Members.{never};
ghost use Rattle.check_verdict.specs.States as spec;
ghost use Rattle.result_check.specs.Watching as watching;
ghost use Rattle.result_check.specs.Watching.{least_of};

use check_verdict::bank::CheckedBank;
use check_verdict::members::{Member, NEVER};
use check_verdict::queue::{has_line, has_room};
use check_verdict::settling::twins_left;
use result_rows::Outcome;
use std::alloc::{AllocError, Global};
use std::marker::Model;

/// A bank, and what ends next there.
#[derive(Drop)]
pub struct Watched {
    bank: CheckedBank,
    // No write is stored below this tick, and no read that waits is read.
    next: u64,
    // How many members have a later one of their line.
    twins: usize,
}

impl Model for Watched {
    ghost use Rattle.check_verdict.specs.States.{Facts};
    ghost use Rattle.check_verdict.specs.Banks.{facts_of};
    ghost use Rattle.result_check.specs.Watching.{IsWatched};

    ghost Value = { Facts };

    ghost view = { λ w. facts_of w.bank };

    ghost invariant = { λ w. IsWatched w.next w.twins (facts_of w.bank) };
}

/// The least of these ticks.
fn first_of(ticks: &[u64]) -> u64
    ensures { result ≡ least_of never ticks.now }
{
    let mut first = NEVER;
    for tick in ticks {
        first = first.min(*tick);
    }
    first
}

/// When a read is read, or never.
fn read_at<const B: usize>(outcome: &Outcome<B>) -> u64
    ensures { result ≡ watching.read_at outcome.now }
{
    match outcome {
        Outcome::Read { tick, .. } => *tick,
        _ => NEVER,
    }
}

impl Watched {
    /// A bank of which no row has passed.
    pub fn new(alloc: Global) -> Watched
        ensures { result ≡ spec.no_facts }
    {
        Watched {
            bank: CheckedBank::new(alloc),
            next: 0,
            twins: 0,
        }
    }

    /// What is kept of the bank.
    pub fn bank(&self) -> &CheckedBank
        ensures { facts_of result.now ≡ self.now }
    {
        &self.bank
    }

    /// Whether the bank holds no more than it may, where its pairs are in order but for the newest member.
    pub fn has_room(&self, writes: u32, reads: u32) -> bool
        ensures { result ≡ room_kept writes reads self.now.members self.now.waits self.now.lost }
    {
        has_room(
            writes,
            reads,
            &self.bank.members,
            &self.bank.waits,
            self.bank.lost,
            self.twins,
        )
    }

    /// Lets time pass up to a tick.
    pub fn settle(&mut self, tick: u64)
        ensures { self.new ≡ spec.settled tick self.old }
    {
        if self.next <= tick {
            self.twins = twins_left(&self.bank.members, tick, self.twins);
            let first = self.bank.settle(tick);
            self.next = first.min(first_of(&self.bank.waits));
        }
    }

    /// Lets a write pass that would be this member.
    pub fn pass_write<const B: usize>(
        &mut self,
        member: Member,
        outcome: &Outcome<B>,
    ) -> Result<(), AllocError>
        ensures { IfOk result
            (λ _. self.new ≡ spec.after_write member.line member outcome.now self.old) }
    {
        let stood = self.bank.members.len();
        let has_mates = has_line(&self.bank.members, member.line);
        self.bank.pass_write(member, has_mates, outcome)?;
        self.next = self.next.min(member.end);
        // Where others of its line stand, no line more has members.
        if has_mates {
            let lines = stood - self.twins;
            self.twins = self.bank.members.len() - lines;
        }
        Ok(())
    }

    /// Lets a read pass that arrived at a tick.
    pub fn pass_read<const B: usize>(
        &mut self,
        tick: u64,
        outcome: &Outcome<B>,
    ) -> Result<(), AllocError>
        requires { self.old.lost < 2 ^ 32 - 1 }
        ensures { IfOk result (λ _. self.new ≡ spec.after_read tick outcome.now self.old) }
    {
        self.bank.pass_read(tick, outcome)?;
        self.next = self.next.min(read_at(outcome));
        Ok(())
    }

    /// Lets a cut pass.
    pub fn pass_cut(&mut self)
        ensures { self.new ≡ spec.cut_off self.old }
    {
        self.bank.pass_cut();
    }
}
