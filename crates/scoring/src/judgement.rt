use sheet::refusal::Refusal;

// What a week comes to.
#[derive(Clone, Copy, PartialEq, Debug)]
pub enum Judgement<K> {
    // A call was refused, by its place in the list: nothing may be paid.
    Refused(usize, Refusal),
    // The total was held against the limit.
    Settled(Settlement<K>),
    // There is no verdict, so that nothing may be paid.
    Unsettled,
}

// The total, the mean unless no store has a score, and whether the total is greater than the limit.
#[derive(Clone, Copy, PartialEq, Debug)]
pub struct Settlement<K> {
    pub total: K,
    pub mean: Option<K>,
    pub exceeds: bool,
}

// What was answered so far.
#[derive(Clone, Copy, PartialEq, Debug)]
pub struct Amounts<K> {
    pub total: Option<K>,
    pub mean: Option<K>,
}
