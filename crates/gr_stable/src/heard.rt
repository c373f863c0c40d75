ghost use Rattle.std.specs.Prelude.{◌≡◌, ◌≤◌, [], IfOk, OnOk, OnErr, option_copied};
ghost use Rattle.gr_history.specs.Recipients.{is_in_bits};
ghost use Rattle.gr_history.specs.Stable.{is_covered, is_later, is_named};
ghost use Rattle.gr_stable.specs.Heard.{heard, later_of, with_report, is_named_by, is_counting_by, is_passed, is_stable_now};

use gr_stamp::Stamp;
use gr_value::{Copied, Memory};
use gr_vector::{Report, Vector};
use std::alloc::Global;
use std::marker::Model;

/// The greatest member number.
const MEMBERS: usize = 8;

/// Of each member the report that counts: the one with the greatest `at`, of several with that `at`
/// the first that was heard. Contracts see them as a list, the first member's at its beginning.
#[derive(Drop)]
pub struct Heard {
    reports: Vec<Option<Report>>,
}

impl Model for Heard {
    ghost use Rattle.std.specs.Prelude.{◌≡◌, length};
    ghost use Rattle.gr_stable.specs.Heard.{Reports};

    ghost Value = { Reports };

    ghost view = { λ h. h.reports.items };

    ghost invariant = { λ h. length h.reports.items ≡ 8 };
}

// Whether a report was made at a later place than the one that counted so far.
fn is_later(report: &Report, before: Option<&Report>) -> bool
    ensures { result ≡ is_later report.now (option_copied before.entry) }
{
    match before {
        None => true,
        Some(before) => before.at < report.at,
    }
}

// Keeps a report where it was made at a later place than the one that counted so far.
fn keep_later(kept: &mut Option<Report>, report: Report)
    ensures { kept.new ≡ later_of report kept.old }
{
    if is_later(&report, kept.as_ref()) {
        *kept = Some(report);
    }
}

// Whether the member reported that it knows the tombstone, and all that it had made by then is known.
fn is_covered(member: u8, tombstone: &Stamp, report: Option<&Report>, vector: &Vector) -> bool
    requires a_member { 1 ≤ member }
    requires of_eight { member ≤ 8 }
    ensures { result ≡ is_covered member (record { member = tombstone.now.member; rv = tombstone.now.rv })
        (option_copied report.entry) vector.now.ids }
{
    match report {
        None => false,
        Some(report) => {
            report
                .vector
                .get()
                .holds(tombstone.member(), tombstone.rv())
                && vector.covers(member, report.own)
        }
    }
}

// Whether the member is among these, with bit m - 1 for member m.
fn is_in_bits(member: u8, bits: u8) -> bool
    requires a_member { 1 ≤ member }
    requires of_eight { member ≤ 8 }
    ensures { result ≡ is_in_bits member bits }
{
    (bits >> (member - 1)) & 1 == 1
}

// Whether a report says that changes of its member go to this one.
fn is_named(member: u8, report: Option<&Report>) -> bool
    requires a_member { 1 ≤ member }
    requires of_eight { member ≤ 8 }
    ensures { result ≡ is_named member (option_copied report.entry) }
{
    match report {
        None => false,
        Some(report) => is_in_bits(member, report.to),
    }
}

impl Heard {
    /// Nothing was heard yet.
    pub fn new(alloc: Global) -> Result<Heard, Memory>
        ensures { IfOk result (λ none. none ≡ heard []) }
    {
        let mut reports = Vec::with_capacity(alloc, MEMBERS)?;
        for _ in 0..MEMBERS {
            reports.push(None)?;
        }
        Ok(Heard { reports })
    }

    /// Hears a report that is moved in, which takes no memory. One of a member above 8 changes nothing.
    pub fn keep(&mut self, report: Report)
        ensures { self.new ≡ with_report report self.old }
    {
        let member = usize::from(report.member);
        if member > self.reports.len() || member == 0 {
            return;
        }
        keep_later(&mut self.reports[member - 1], report);
    }

    /// Hears a report, of which it keeps a copy.
    pub fn hear(&mut self, alloc: Global, report: &Report) -> Result<(), Memory>
        ensures ok { OnOk result (self.new ≡ with_report report.now self.old) }
        ensures err { OnErr result (self.new ≡ self.old) }
    {
        self.keep(report.copy(alloc)?);
        Ok(())
    }

    // Whether the report that counts of one of the founders names the member.
    fn is_named(&self, member: u8, founders: u8) -> bool
        requires a_member { 1 ≤ member }
        requires of_eight { member ≤ 8 }
        requires few { founders ≤ 8 }
        ensures { result ≡ is_named_by member founders self.now }
    {
        let mut founder = founders;
        while founder > 0 {
            if is_named(member, self.reports[usize::from(founder) - 1].as_ref()) {
                return true;
            }
            founder -= 1;
        }
        false
    }

    // Whether the member counts.
    fn counts(&self, member: u8, founders: u8, given: u8) -> bool
        requires a_member { 1 ≤ member }
        requires of_eight { member ≤ 8 }
        requires few { founders ≤ 8 }
        ensures { result ≡ is_counting_by founders given member self.now }
    {
        member <= founders || is_in_bits(member, given) || self.is_named(member, founders)
    }

    // Whether the member holds no tombstone back: it is this one, it doesn't count, or it is covered.
    fn passes(
        &self,
        tombstone: &Stamp,
        me: u8,
        founders: u8,
        given: u8,
        vector: &Vector,
        member: u8,
    ) -> bool
        requires a_member { 1 ≤ member }
        requires of_eight { member ≤ 8 }
        requires few { founders ≤ 8 }
        ensures { result ≡ is_passed me founders given (record { member = tombstone.now.member; rv = tombstone.now.rv })
            self.now vector.now.ids member }
    {
        let report = self.reports[usize::from(member) - 1].as_ref();
        member == me
            || !self.counts(member, founders, given)
            || is_covered(member, tombstone, report, vector)
    }

    /// Whether each member that counts, but this one, reported that it knows the tombstone, and all that
    /// it had made by then is in the vector. The founders count, the members that were given something,
    /// with bit m - 1 for member m, and those to which the founders' reports say that changes go.
    pub fn stable(
        &self,
        tombstone: &Stamp,
        me: u8,
        founders: u8,
        given: u8,
        vector: &Vector,
    ) -> bool
        requires { founders ≤ 8 }
        ensures { result ≡ is_stable_now me founders given (record { member = tombstone.now.member; rv = tombstone.now.rv })
            self.now vector.now.ids }
    {
        let mut member = MEMBERS as u8;
        while member > 0 {
            if !self.passes(tombstone, me, founders, given, vector, member) {
                return false;
            }
            member -= 1;
        }
        true
    }
}
