//! Calls and answers as they are printed.
use ledger::call::Call;
use refusals::Numbered;
use sheet::refusal::Refusal;
use std::fmt;
use std::num::{f32_to_bits_with_nan, f64_to_bits_with_nan};
use week::answer::Answer;

// A kind whose figures can be printed.
// Stays a trait: the `Display` of a float is that of std, which prints no bits.
pub trait Show {
    fn show<W: fmt::Write>(&self, f: &mut fmt::Formatter<W>) -> fmt::Result;
}

// The digits of the bits.
impl Show for f64 {
    fn show<W: fmt::Write>(&self, f: &mut fmt::Formatter<W>) -> fmt::Result {
        let bits = f64_to_bits_with_nan(*self);
        write!(f, "{bits:016x}")
    }
}

// The digits of the bits.
impl Show for f32 {
    fn show<W: fmt::Write>(&self, f: &mut fmt::Formatter<W>) -> fmt::Result {
        let bits = f32_to_bits_with_nan(*self);
        write!(f, "{bits:08x}")
    }
}

impl Show for i64 {
    fn show<W: fmt::Write>(&self, f: &mut fmt::Formatter<W>) -> fmt::Result {
        let cents = *self;
        write!(f, "{cents}")
    }
}

// A call or an answer as the program prints it.
#[derive(Drop)]
pub struct Shown<'a, T>(pub &'a T);

impl<K: Show> fmt::Display for Shown<'_, Call<K>> {
    fn fmt<W: fmt::Write>(&self, f: &mut fmt::Formatter<W>) -> fmt::Result {
        match self.0 {
            Call::Enter(row, x) => {
                write!(f, "enter {row} ")?;
                x.show(f)
            }
            Call::On(row) => write!(f, "on {row}"),
            Call::OnAll => write!(f, "on_all"),
            Call::Back(row) => write!(f, "back {row}"),
            Call::Clear(row) => write!(f, "clear {row}"),
            Call::Read(row) => write!(f, "read {row}"),
            Call::Close => write!(f, "close"),
            Call::Reopen => write!(f, "reopen"),
            Call::Total => write!(f, "total"),
            Call::Mean => write!(f, "mean"),
            Call::Exceeds(limit) => {
                write!(f, "exceeds ")?;
                limit.show(f)
            }
        }
    }
}

impl<K: Show> fmt::Display for Shown<'_, Answer<K>> {
    fn fmt<W: fmt::Write>(&self, f: &mut fmt::Formatter<W>) -> fmt::Result {
        match self.0 {
            Answer::Done => write!(f, "done"),
            Answer::Row(mark, x) => {
                write!(f, "{mark} ")?;
                x.show(f)
            }
            Answer::Amount(x) => x.show(f),
            Answer::Verdict(true) => write!(f, "yes"),
            Answer::Verdict(false) => write!(f, "no"),
            Answer::Refused(refusal) => Shown(refusal).fmt(f),
            Answer::LeftOut => write!(f, "left out, the sheet has no such call now"),
        }
    }
}

impl fmt::Display for Shown<'_, Refusal> {
    fn fmt<W: fmt::Write>(&self, f: &mut fmt::Formatter<W>) -> fmt::Result {
        let number = self.0.number();
        write!(f, "refused with {number}")?;
        if let Some(row) = self.0.row() {
            write!(f, ", row {row}")?;
        }
        Ok(())
    }
}
