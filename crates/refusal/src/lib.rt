// Why a call is refused.
#![tactic(auto)]

ghost use Rattle.std.specs.Prelude.{◌≡◌};
ghost use Rattle.refusal.specs.Refusal.{number_of};

// 01's refusals and 02's, by their numbers.
#[derive(Clone, Copy, Debug, PartialEq, Eq)]
pub enum Refusal {
    BadWindows = 2001,
    BadDirectory = 2002,
    BadDevice = 2003,
    BadProcess = 2004,
    NoProcess = 2005,
    BadLength = 2006,
    FileOutside = 2007,
    NoFile = 2008,
    BadIdentity = 2009,
    UnknownNumber = 2010,
    Overlap = 2011,
    FileOverTables = 2012,
    BadQueue = 2013,
    NotInDomain = 2014,
}

impl Refusal {
    // The number by which a face that knows only numbers tells it.
    pub fn number(self) -> u64
        ensures { result ≡ number_of self }
    {
        self as u64
    }
}
