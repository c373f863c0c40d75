ghost use Rattle.std.specs.Prelude.{◌≡◌};
ghost use Rattle.gr_script.specs.Scripts.{is_run};

/// What a script is read for.
#[derive(Clone, Copy, Debug, PartialEq, Eq)]
pub enum Form {
    /// To be replayed line by line.
    Replay,
    /// To be run by many at once, where deliveries and hearings come of themselves.
    Run,
}

/// Whether no line may say what comes of itself.
pub(crate) fn is_run(form: Form) -> bool
    ensures { result ≡ is_run form }
{
    match form {
        Form::Replay => false,
        Form::Run => true,
    }
}
