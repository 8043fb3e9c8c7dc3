//! Running out of memory in a result.
ghost use Rattle.std.specs.Prelude.{◌≡◌};
ghost use Rattle.slate_ids.specs.Answers.{ran_out};

use slate_ids::SlateDBError;

/// Whether memory ran out.
pub fn ran_out<R>(reply: &Result<R, SlateDBError>) -> bool
    ensures { result ≡ ran_out reply.now }
{
    match reply {
        Ok(_) => false,
        Err(e) => e.is_memory(),
    }
}
