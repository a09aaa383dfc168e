ghost use Rattle.std.specs.Prelude.{◌≡◌, map, None, Ok, Err, MatchResult};
ghost use Rattle.ledger.specs.Ledgers.{refused as refused_reply};
ghost use Rattle.sheet.specs.Refusals.{told};
ghost use Rattle.week.specs.Weeks.{replied};
ghost use Rattle.scoring.specs.Scores.{next, amount_read, verdict_read, judged, judgement, unsettled};
ghost use Rattle.scoring.specs.Readings.{reading};

use crate::judgement::{Amounts, Judgement, Settlement};
use kinds::kind::Kind;
use sheet::refusal::Refusal;
use week::answer::Answer;

fn read_amount<K: Kind>(so_far: Amounts<K>, x: K) -> Amounts<K>
    ensures { reading (Ok result) ≡ amount_read so_far.total so_far.mean x }
{
    match so_far.total {
        None => Amounts {
            total: Some(x),
            ..so_far
        },
        Some(_) => Amounts {
            mean: Some(x),
            ..so_far
        },
    }
}

fn read_verdict<K: Kind>(so_far: Amounts<K>, exceeds: bool) -> Judgement<K>
    ensures { reading (Err result) ≡ verdict_read so_far.total so_far.mean exceeds }
{
    so_far.total.map_or(Judgement::Unsettled, |total| {
        Judgement::Settled(Settlement {
            total,
            mean: so_far.mean,
            exceeds,
        })
    })
}

// A refusal refuses the week, but that a week with no scores has no mean.
fn read_refusal<K: Kind>(
    i: usize,
    so_far: Amounts<K>,
    refusal: Refusal,
) -> Result<Amounts<K>, Judgement<K>>
    ensures { reading result ≡ next i so_far.total so_far.mean (refused_reply (told refusal)) }
{
    match refusal {
        Refusal::NothingTurned => Ok(so_far),
        _ => Err(Judgement::Refused(i, refusal)),
    }
}

// One answer read: the amounts so far, or the end.
fn read_one<K: Kind>(
    i: usize,
    so_far: Amounts<K>,
    answer: &Answer<K>,
) -> Result<Amounts<K>, Judgement<K>>
    ensures { reading result ≡ next i so_far.total so_far.mean (replied answer.now) }
{
    match *answer {
        Answer::Done | Answer::Row(_, _) | Answer::LeftOut => Ok(so_far),
        Answer::Amount(x) => Ok(read_amount(so_far, x)),
        Answer::Verdict(exceeds) => Err(read_verdict(so_far, exceeds)),
        Answer::Refused(refusal) => read_refusal(i, so_far, refusal),
    }
}

// All answers read, up to the one that ends the week.
fn read_all<K: Kind>(answers: &[Answer<K>]) -> Result<(), Judgement<K>>
    ensures { MatchResult result (λ _. judgement 0 None None (map replied answers.now) ≡ unsettled) (λ end. judgement 0 None None (map replied answers.now) ≡ judged end) }
{
    let mut so_far = Amounts {
        total: None,
        mean: None,
    };
    for (i, answer) in answers.iter().enumerate() {
        so_far = read_one(i, so_far, answer)?;
    }
    Ok(())
}

// What the answers of a week come to.
pub fn judge<K: Kind>(answers: &[Answer<K>]) -> Judgement<K>
    ensures { judged result ≡ judgement 0 None None (map replied answers.now) }
{
    read_all(answers).err().unwrap_or(Judgement::Unsettled)
}
