// A lent list of findings, four numbers each: whether it rises, and how much of it stays.
ghost use Rattle.std.specs.Prelude.{◌≡◌, ◌+◌, ◌%◌, ◌≤◌, length};
ghost use Rattle.timetable.specs.Recheck.{list_rises};
ghost use Rattle.recheck.specs.between.Kept.{before_at, kept_numbers, Ordered, Run, Stay};

use scope::redone;
use scope::redone::Marks;

// The four numbers of a at i are before those of b at j. Number by number, since `a[i..i + 4] < b[j..j + 4]` was tried
// and is slower: a recheck of 6,332 findings took 350 k instructions in place of 156 k.
pub(crate) fn is_before(a: &[u16], i: usize, b: &[u16], j: usize) -> bool
    requires { (i + 4 ≤ length a.now) × (j + 4 ≤ length b.now) }
    ensures { result ≡ before_at i a.now j b.now }
{
    let station = a[i];
    let other_station = b[j];
    if station != other_station {
        return station < other_station;
    }
    let rule = a[i + 1];
    let other_rule = b[j + 1];
    if rule != other_rule {
        return rule < other_rule;
    }
    let first = a[i + 2];
    let other_first = b[j + 2];
    if first != other_first {
        return first < other_first;
    }
    let second = a[i + 3];
    let other_second = b[j + 3];
    second < other_second
}

// "3 unless it rises", strictly, in whole findings.
pub(crate) fn rises(list: &[u16]) -> bool
    ensures { result ≡ list_rises list.now }
{
    if list.len() % 4 != 0 {
        return false;
    }
    for i in 1..list.len() / 4 {
        if !is_before(list, 4 * i - 4, list, 4 * i) {
            return false;
        }
    }
    true
}

// Behind the findings from i on that have the station of the one at i, searched by halving: at least `low` of them have
// it, and at most `high`. The loop stays a `while`, since each step is half of what is left (one by one is slower).
pub(crate) fn run_end(list: &[u16], i: usize) -> usize
    requires { (i + 4 ≤ length list.now) × (i % 4 ≡ 0) × Ordered list.now }
    ensures { Run list.now i result }
{
    let station = list[i];
    let mut low: usize = 1;
    let mut high = (list.len() - i) / 4;
    while low < high {
        let middle = low + (high - low) / 2;
        if list[i + 4 * middle] == station {
            low = middle + 1;
        } else {
            high = middle;
        }
    }
    i + 4 * low
}

// How many numbers stay of some findings, one by one.
fn entries_kept(list: &[u16], marks: Marks, start: usize, end: usize) -> usize
    requires { Run list.now start end }
    ensures { Stay marks list.now start end result }
{
    let mut kept: usize = 0;
    for i in 0..(end - start) / 4 {
        let at = start + 4 * i;
        if !redone::is_redone(marks, list[at], list[at + 1]) {
            kept += 4;
        }
    }
    kept
}

// How many numbers stay of findings of one station.
fn run_kept(list: &[u16], marks: Marks, i: usize, end: usize) -> usize
    requires { Run list.now i end }
    ensures { Stay marks list.now i end result }
{
    let level = redone::level(marks, list[i]);
    if level == 0 {
        return end - i;
    }
    if level == 2 {
        return 0;
    }
    entries_kept(list, marks, i, end)
}

// How many numbers of the list stay, run by run: findings of one station stand side by side. The loop stays a `while`,
// since a step is as long as the run that is found.
pub(crate) fn kept_length(list: &[u16], marks: Marks) -> usize
    requires { Ordered list.now }
    ensures { result ≡ length (kept_numbers marks list.now) }
{
    let k = list.len();
    let mut kept: usize = 0;
    let mut i: usize = 0;
    while 4 <= k - i {
        let end = run_end(list, i);
        let run = run_kept(list, marks, i, end);
        kept += run;
        i = end;
    }
    kept
}
