//! How the number of a record is kept where there may be none, in half of the room that it would take else.
ghost use Rattle.std.specs.Prelude.{◌≡◌, ◌<◌, IfSome};
ghost use Rattle.heap_log.specs.KeptNumbers.{number_in};

/// What is kept of a number: 0 is none, since records are numbered from 1.
pub(crate) fn kept(number: Option<usize>) -> usize
    requires { IfSome number (λ n. 0 < n) }
    ensures { number_in result ≡ number }
{
    number.unwrap_or(0)
}

/// The number that is kept so.
pub(crate) fn number_in(kept: usize) -> Option<usize>
    ensures { result ≡ number_in kept }
{
    if kept == 0 { None } else { Some(kept) }
}
