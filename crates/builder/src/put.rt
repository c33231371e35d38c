// Numbers put into the lent buffer from a place on. Those past its end are counted and not written.
ghost use Rattle.std.specs.Prelude.{◌≡◌, ◌*◌, ◌≤◌, set};
ghost use Rattle.timetable.specs.Outputs.{Puts};
ghost use Rattle.builder.specs.between.Builder.{told, list_most};
ghost use Rattle.builder.specs.between.Kinds.{rule_number};

use crate::kinds::Rule;
use railway::sorts::Station;

fn put_one(out: &mut [u16], at: usize, x: u16)
    ensures { out.new ≡ set out.old at x }
{
    if at < out.len() {
        out[at] = x;
    }
}

// The four numbers of a finding, where it is found: the place behind them.
pub(crate) fn finding(
    out: &mut [u16],
    at: usize,
    found: bool,
    s: Station,
    rule: Rule,
    first: u16,
    second: u16,
) -> usize
    requires { at ≤ 3 * list_most }
    ensures { Puts at (told found s (rule_number rule) first second) out.old result out.new 4 }
{
    if found {
        put_one(out, at, u16::from(s.0));
        put_one(out, at + 1, u16::from(rule));
        put_one(out, at + 2, first);
        put_one(out, at + 3, second);
        return at + 4;
    }
    at
}
