// "Times are whole minutes from 0 to 2879."
ghost use Rattle.std.specs.Prelude.{◌≡◌};
ghost use Rattle.railway.specs.Ranges.{minute_ok, minutes_after, window_end_ok};

#[derive(Clone, Copy, Debug, PartialEq, Eq, PartialOrd, Ord, Hash)]
pub struct Minute(pub u16);

impl Minute {
    // The last minute.
    pub const LAST: u16 = 2879;

    pub fn valid(self) -> bool
        ensures { result ≡ minute_ok self }
    {
        self.0 <= Minute::LAST
    }

    // How many minutes this is after the other: negative where it is earlier.
    pub fn gap(self, other: Minute) -> i32
        ensures { result ≡ minutes_after other self }
    {
        i32::from(self.0) - i32::from(other.0)
    }
}

// The end of a window of minutes: the first minute behind it, so it may be one above the last minute.
#[derive(Clone, Copy, Debug, PartialEq, Eq, PartialOrd, Ord, Hash)]
pub struct WindowEnd(pub u16);

impl WindowEnd {
    pub const LAST: u16 = 2880;

    pub fn valid(self) -> bool
        ensures { result ≡ window_end_ok self }
    {
        base::is_within(1, WindowEnd::LAST, self.0)
    }
}
