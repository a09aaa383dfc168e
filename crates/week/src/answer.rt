ghost use Rattle.std.specs.Prelude.{◌≡◌, MatchResult};

use ledger::mark::Mark;
use sheet::refusal::Refusal;

// What a call of a list is answered.
#[derive(Clone, Copy, PartialEq, Debug)]
pub enum Answer<K> {
    // It was carried out.
    Done,
    // The mark and the figure of a row.
    Row(Mark, K),
    // A total or a mean.
    Amount(K),
    // Whether the total is greater than the limit.
    Verdict(bool),
    // It was refused, and nothing was changed.
    Refused(Refusal),
    // The sheet has no such call while it is open, or while it is closed: nothing was called.
    LeftOut,
}

impl<K> Answer<K> {
    // The answer of a call that gave this: `given` of the value, or the refusal.
    // Stays a match: of `map_or_else` with a `given` of this type the check makes no proof yet.
    pub(crate) fn of<T, F: FnOnce(T) -> Answer<K>>(r: Result<T, Refusal>, given: F) -> Answer<K>
        requires { F.IsAlwaysCallable given }
        ensures { MatchResult r (λ x. F.post given x result) (λ refusal. result ≡ Answer.Refused refusal) }
    {
        match r {
            Ok(x) => given(x),
            Err(refusal) => Answer::Refused(refusal),
        }
    }
}
