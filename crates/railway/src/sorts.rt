// "the theory has each as its own sort, so no call accepts a line number where a train number belongs"
ghost use Rattle.std.specs.Prelude.{◌≡◌};
ghost use Rattle.railway.specs.Ranges.{station_ok, train_ok, is_freight, track_ok, line_ok, area_ok};

#[derive(Clone, Copy, Debug, PartialEq, Eq, PartialOrd, Ord, Hash)]
pub struct Station(pub u8);

#[derive(Clone, Copy, Debug, PartialEq, Eq, PartialOrd, Ord, Hash)]
pub struct Train(pub u16);

#[derive(Clone, Copy, Debug, PartialEq, Eq, PartialOrd, Ord, Hash)]
pub struct Track(pub u8);

#[derive(Clone, Copy, Debug, PartialEq, Eq, PartialOrd, Ord, Hash)]
pub struct Line(pub u8);

#[derive(Clone, Copy, Debug, PartialEq, Eq, PartialOrd, Ord, Hash)]
pub struct Area(pub u8);

impl Station {
    pub fn valid(self) -> bool
        ensures { result ≡ station_ok self }
    {
        base::is_within(1, 16, u16::from(self.0))
    }
}

impl Train {
    pub fn valid(self) -> bool
        ensures { result ≡ train_ok self }
    {
        base::is_within(1, 9999, self.0)
    }

    // "Trains numbered 5000 and up are freight"
    pub fn is_freight(self) -> bool
        ensures { result ≡ is_freight self }
    {
        5000 <= self.0
    }
}

impl Track {
    pub fn valid(self) -> bool
        ensures { result ≡ track_ok self }
    {
        base::is_within(1, 8, u16::from(self.0))
    }
}

impl Line {
    pub fn valid(self) -> bool
        ensures { result ≡ line_ok self }
    {
        base::is_within(1, 32, u16::from(self.0))
    }
}

impl Area {
    pub fn valid(self) -> bool
        ensures { result ≡ area_ok self }
    {
        base::is_within(1, 6, u16::from(self.0))
    }
}
