ghost use Rattle.std.specs.Prelude.{◌≡◌, SomeIff, option_copied};
ghost use Rattle.gr_stamp.specs.Version.{Version, IsInRange, beats, decides};

use std::marker::Model;

/// The greatest version of an entry and the greatest region version, 2^48 - 1.
pub const LIMIT: u64 = 281474976710655;

/// How many members' numbers have room beside a version.
const MEMBERS: u64 = 16;

/// The version stamp of a change: the entry's version, the member that made the change, and that
/// member's region version. The member and the region version name the change.
#[derive(Clone, Copy)]
pub struct Stamp {
    // The version and, in the last four bits, the member: in this order stamps are compared.
    head: u64,
    rv: u64,
}

impl Model for Stamp {
    ghost use Rattle.std.specs.Prelude.{◌+◌, ◌*◌, ◌/◌, ◌%◌};
    ghost use Rattle.gr_stamp.specs.Version.{Version, IsInRange};

    ghost Value = { Version };

    ghost view = { λ stamp. record { ver = stamp.head / 16; member = stamp.head % 16; rv = stamp.rv } };

    ghost invariant = { λ stamp. IsInRange (stamp.head / 16) (stamp.head % 16) stamp.rv };

    ghost inverse = { λ version. record { head = version.ver * 16 + version.member; rv = version.rv } };
}

impl Stamp {
    /// Versions are from 1 to `LIMIT`, members from 1 to 8.
    pub fn new(ver: u64, member: u8, rv: u64) -> Option<Stamp>
        ensures { SomeIff result (IsInRange ver member rv) (record { ver = ver; member = member; rv = rv }) }
    {
        let versions = 1..=LIMIT;
        if versions.contains(&ver) && (1..=8).contains(&member) && versions.contains(&rv) {
            let head = ver * MEMBERS + u64::from(member);
            Some(Stamp { head, rv })
        } else {
            None
        }
    }

    pub fn ver(&self) -> u64
        ensures ver { result ≡ self.now.ver }
        ensures range { IsInRange self.now.ver self.now.member self.now.rv }
    {
        self.head / MEMBERS
    }

    pub fn member(&self) -> u8
        ensures member { result ≡ self.now.member }
        ensures range { IsInRange self.now.ver self.now.member self.now.rv }
    {
        (self.head % MEMBERS) as u8
    }

    pub fn rv(&self) -> u64
        ensures rv { result ≡ self.now.rv }
        ensures range { IsInRange self.now.ver self.now.member self.now.rv }
    {
        self.rv
    }

    /// Whether this stamp is strictly greater.
    pub fn beats(&self, other: &Stamp) -> bool
        ensures { result ≡ beats self.now other.now }
    {
        (self.head, self.rv) > (other.head, other.rv)
    }
}

/// Whether a change with the new stamp replaces what is held.
pub fn decide(held: Option<&Stamp>, new: &Stamp) -> bool
    ensures { result ≡ decides (option_copied held.entry) new.now }
{
    match held {
        None => true,
        Some(held) => new.beats(held),
    }
}
