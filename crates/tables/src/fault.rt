// Why a table refuses an entry.
ghost use Rattle.std.specs.Prelude.{◌≡◌};
ghost use Rattle.tables.specs.Faults.{number};

#[derive(Clone, Copy, PartialEq, Eq, Debug)]
pub enum TableFault {
    // The key is new, and every entry of the slice is in use.
    Full = 11,
}

impl TableFault {
    // A method, since its name says more than `u8::from`.
    pub fn number(self) -> u8
        ensures { result ≡ number self }
    {
        self as u8
    }
}
