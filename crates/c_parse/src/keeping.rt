// What is kept beside an answer.
ghost use Rattle.std.specs.Prelude.{◌≡◌, IfOk, IfErr, Ok, Err};

/// A value and what an answer gives, or the answer's refusal. A function that is refused while it owns a tree ends it in this one place, which
/// spares a proof of that at each of its exits.
pub(crate) fn keeping<T: Drop, A, E>(kept: T, answer: Result<A, E>) -> Result<(T, A), E>
    ensures ok { IfOk result (λ r. (r.0 ≡ kept) × (answer ≡ Ok r.1)) }
    ensures err { IfErr result (λ e. answer ≡ Err e) }
{
    match answer {
        Ok(given) => Ok((kept, given)),
        Err(error) => Err(error),
    }
}
