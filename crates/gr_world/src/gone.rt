ghost use Rattle.std.specs.Prelude.{◌≡◌};
ghost use Rattle.gr_script.specs.Steps.{is_gone};

/// Whether the member is among those that departed.
pub fn is_gone(gone: &[u8], member: u8) -> bool
    ensures { result ≡ is_gone gone.now member }
{
    for one in gone {
        if *one == member {
            return true;
        }
    }
    false
}
