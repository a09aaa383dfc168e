//! What is told of a refusal, whichever enum it is a case of.
#![tactic(auto)]

ghost use Rattle.std.specs.Prelude.{◌≡◌};
ghost use Rattle.refusals.specs.Refusals.{Told};

// A type of refusals: `told` gives, for every case, its number and the values that belong to it.
pub trait Numbered {
    ghost told: { Self → Told };

    fn number(&self) -> u8
        ensures { result ≡ (told self.now).number };
}
