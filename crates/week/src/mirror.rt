ghost use Rattle.std.specs.Prelude.{◌≡◌, ℕ, ◌≤◌, false, map, IfOk};
ghost use Rattle.ledger.specs.Mirrors.{mirror_call, mirror_listed};
ghost use Rattle.week.specs.Law.{MirroredWeek};

use conversion::conversion::Odd;
use kinds::kind::Kind;
use ledger::call::{Call, Listed};
use std::alloc::{AllocError, Global};

// The same call, where a figure that is entered has its sign turned.
fn mirrored_call<K: Kind>(call: &Call<K>) -> Call<K>
    ensures { result ≡ mirror_call K.Kind.means call.now }
{
    match *call {
        Call::Enter(i, x) => Call::Enter(i, x.turned()),
        other => other,
    }
}

// The list that mirrors another: the same calls, with every figure that is entered sign-turned. Under
// an odd conversion of a kind whose zero is not infinite, the week of the one mirrors the week of the other,
// whatever the number of rows.
pub fn mirrored<C: Odd>(
    heap: Global,
    c: &C,
    calls: &[Listed<C::Figure>],
) -> Result<Vec<Listed<C::Figure>>, AllocError>
    ensures list { IfOk result (λ v. v.items ≡ map (mirror_listed C.Figure.Kind.means) calls.now) }
    ensures week { C.Figure.Kind.means.infinite C.Figure.Kind.means.nought ≡ false → (n : ℕ) → n ≤ 4096 → MirroredWeek C.Figure.Kind.means (C.Conversion.rule c.now) n calls.now }
{
    calls
        .iter()
        .map(|listed| Listed {
            call: mirrored_call(&listed.call),
            ..*listed
        })
        .collect(heap)
}
