// The rules, and which of them are redone at a station.
ghost use Rattle.std.specs.Prelude.{map, ◌≡◌};
ghost use Rattle.builder.specs.between.Builder.{first_rule, rules_redone};
ghost use Rattle.builder.specs.between.Kinds.{rule_number, counting};

// By what breaks them, with their numbers.
#[derive(Clone, Copy, Debug, PartialEq, Eq, PartialOrd, Ord, Hash)]
pub(crate) enum Rule {
    // A departure before the arrival.
    Backwards = 1,
    // Two trains on one track.
    TrackTaken = 2,
    // Two trains that leave closer than the headway.
    Headway = 3,
    // A relation that the visits do not meet.
    Unmet = 4,
    // A run below the line's least.
    TooFast = 5,
    // A line that has no room for one more train.
    LineFull = 6,
    // An out-link, or an in-link, that its far visit does not answer.
    OutUnanswered = 7,
    InUnanswered = 8,
    // A far arrival that is not departure and run.
    FarArrival = 9,
    // A train the other way on a single line.
    Opposed = 10,
    // A line that is closed.
    Closed = 11,
}

impl From<Rule> for u16 {
    ghost from_gives = { λ r k. k ≡ rule_number r };

    fn from(rule: Rule) -> u16 {
        rule as u16
    }
}

const ALL: [Rule; 11] = [
    Rule::Backwards,
    Rule::TrackTaken,
    Rule::Headway,
    Rule::Unmet,
    Rule::TooFast,
    Rule::LineFull,
    Rule::OutUnanswered,
    Rule::InUnanswered,
    Rule::FarArrival,
    Rule::Opposed,
    Rule::Closed,
];

// What is redone at a station of this level.
pub(crate) fn rules_redone(level: u8) -> &'static [Rule]
    ensures { map rule_number result.now ≡ counting (first_rule level) (rules_redone level) }
{
    match level {
        2 => &ALL,
        1 => &ALL[6..10],
        _ => &[],
    }
}
