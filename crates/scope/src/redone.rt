// Which findings of a list are redone after an edit, by the station and the rule of a finding.
ghost use Rattle.std.specs.Prelude.{◌≡◌};
ghost use Rattle.timetable.specs.Findings.{is_far};
ghost use Rattle.scope.specs.Redone.{all_redone, level, is_redone};

// How much is redone at each station. A flag and numbers, and no cases: `level` of specs/Redone.antt reads both fields.
#[derive(Clone, Copy, Debug, PartialEq, Eq, Hash)]
pub struct Marks {
    // All findings, whatever their station.
    pub everywhere: bool,
    // By the station's number less 1: 0 nothing, 1 rules 7 to 10, 2 all rules.
    pub levels: [u8; 16],
}

// All findings of a list.
pub fn everywhere() -> Marks
    ensures { result ≡ all_redone }
{
    Marks {
        everywhere: true,
        levels: [0; 16],
    }
}

// Rules 7 to 10.
pub fn is_far(rule: u16) -> bool
    ensures { result ≡ is_far rule }
{
    matches!(rule, 7..=10)
}

// The level of a station's number; 0 for a number that no station has.
pub fn level(marks: Marks, station: u16) -> u8
    ensures { result ≡ level marks station }
{
    if marks.everywhere {
        2
    } else if matches!(station, 1..=16) {
        marks.levels[usize::from(station) - 1]
    } else {
        0
    }
}

pub fn is_redone(marks: Marks, station: u16, rule: u16) -> bool
    ensures { result ≡ is_redone marks station rule }
{
    match level(marks, station) {
        2 => true,
        1 => is_far(rule),
        _ => false,
    }
}
