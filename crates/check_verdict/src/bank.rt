//! What is kept of a bank, as time passes and behind each row.

ghost use Rattle.std.specs.Prelude.{◌≡◌, ◌<◌, ◌≤◌, ◌^◌, ◌-◌, IfOk, OnErr, filter, nat_lt};
ghost use Rattle.std.specs.List.{list_any};
ghost use Rattle.std.specs.Vec.{vec_len, vec_capacity};
ghost use Rattle.check_verdict.specs.Banks.{facts_of};
ghost use Rattle.check_verdict.specs.Fitting.{is_of};
ghost use Rattle.check_verdict.specs.Joined.{stays_beside};
ghost use Rattle.check_verdict.specs.Kept.{least_end};
ghost use Rattle.check_verdict.specs.Members.{never};
ghost use Rattle.check_verdict.specs.States as spec;

use crate::members::Member;
use crate::settling::{Ends, ends_at, later_of, let_leave};
use result_rows::Outcome;
use std::alloc::{AllocError, Global};

/// What is kept of a bank, in place of the rows that have passed.
#[derive(Drop)]
pub struct CheckedBank {
    /// The writes that stand in its queue, the oldest first.
    pub members: Vec<Member>,
    /// The ticks of the reads that wait and are read later.
    pub waits: Vec<u64>,
    /// How many of those that wait a cut will lose.
    pub lost: u32,
    /// The last ticks at which a read was read, and a write stored.
    pub last_answer: Option<u64>,
    pub last_store: Option<u64>,
    /// Whether a write was refused, since a worn line found no spare.
    pub worn: bool,
    /// The arrivals of the last four reads that are read or lost, the newest first.
    pub first: Option<u64>,
    pub second: Option<u64>,
    pub third: Option<u64>,
    pub fourth: Option<u64>,
}

/// Lets those reads go that are read by a tick.
fn let_go(waits: &mut Vec<u64>, tick: u64)
    ensures { waits.new.items ≡ filter (λ v. nat_lt tick v) waits.old.items }
{
    waits.retain(
        |at: &u64| -> bool
            ensures { result ≡ nat_lt tick at.now }
        { tick < *at },
    );
}

/// Lets the member leave that is merged into a write of this line, where the line has members or not. Room that there was stays.
fn let_merge(members: &mut Vec<Member>, has_mates: bool, line: u32)
    requires { has_mates ≡ list_any (is_of line) members.old.items }
    ensures items { members.new.items ≡ filter (stays_beside line) members.old.items }
    ensures len { vec_len members.new ≤ vec_len members.old }
    ensures capacity { vec_capacity members.new ≡ vec_capacity members.old }
{
    if has_mates {
        members.retain(
            |member: &Member| -> bool
                ensures { result ≡ stays_beside line member.now }
            { !(member.merged && line == member.line) },
        );
    }
}

impl CheckedBank {
    /// A bank of which no row has passed.
    pub fn new(alloc: Global) -> CheckedBank
        ensures { facts_of result ≡ spec.no_facts }
    {
        CheckedBank {
            members: Vec::new(alloc),
            waits: Vec::new(alloc),
            lost: 0,
            last_answer: None,
            last_store: None,
            worn: false,
            first: None,
            second: None,
            third: None,
            fourth: None,
        }
    }

    /// Lets time pass up to a tick, and tells when the first of the writes that stay is stored, or never.
    pub fn settle(&mut self, tick: u64) -> u64
        ensures facts { facts_of self.new ≡ spec.settled tick (facts_of self.old) }
        ensures first { result ≡ least_end never self.new.members.items }
    {
        let Ends { last, first } = ends_at(&self.members, tick, self.last_store);
        self.last_store = last;
        let_leave(&mut self.members, tick);
        let_go(&mut self.waits, tick);
        first
    }

    /// Lets a write pass that would be this member, where its line has members or not.
    pub fn pass_write<const B: usize>(
        &mut self,
        member: Member,
        has_mates: bool,
        outcome: &Outcome<B>,
    ) -> Result<(), AllocError>
        requires { has_mates ≡ list_any (is_of member.line) self.old.members.items }
        ensures ok { IfOk result (λ _. facts_of self.new
            ≡ spec.after_write member.line member outcome.now (facts_of self.old)) }
        ensures err { OnErr result (facts_of self.new ≡ facts_of self.old) }
    {
        match outcome {
            Outcome::Stored { .. } | Outcome::Merged { .. } | Outcome::Queued { .. } => {
                self.members.reserve(1)?;
                let_merge(&mut self.members, has_mates, member.line);
                self.members.push(member)?;
            }
            Outcome::Worn { .. } => {
                self.worn = true;
            }
            _ => {}
        }
        Ok(())
    }

    /// Lets another read be the last that came.
    fn come(&mut self, tick: u64)
        ensures { facts_of self.new ≡ spec.with_arrival tick (facts_of self.old) }
    {
        self.fourth = self.third;
        self.third = self.second;
        self.second = self.first;
        self.first = Some(tick);
    }

    /// Lets a read pass that arrived at a tick.
    pub fn pass_read<const B: usize>(
        &mut self,
        tick: u64,
        outcome: &Outcome<B>,
    ) -> Result<(), AllocError>
        requires { self.old.lost < 2 ^ 32 - 1 }
        ensures ok { IfOk result (λ _. facts_of self.new
            ≡ spec.after_read tick outcome.now (facts_of self.old)) }
        ensures err { OnErr result (facts_of self.new ≡ facts_of self.old) }
    {
        match outcome {
            Outcome::Read { tick: at, .. } => {
                self.waits.push(*at)?;
                self.last_answer = later_of(*at, self.last_answer);
                self.come(tick);
            }
            Outcome::Lost { .. } => {
                self.lost += 1;
                self.come(tick);
            }
            _ => {}
        }
        Ok(())
    }

    /// Lets a cut pass.
    pub fn pass_cut(&mut self)
        ensures { facts_of self.new ≡ spec.cut_off (facts_of self.old) }
    {
        self.lost = 0;
    }
}
