// Why a file is not taken into a bank.
ghost use Rattle.std.specs.Prelude.{◌≡◌};
ghost use Rattle.blobs.specs.declared.fault.BankFault.TheVariants.{Table};

use tables::TableFault;

#[derive(Clone, Copy, PartialEq, Eq, Debug)]
pub enum BankFault {
    // The buffer has too few bytes left.
    NoRoom,
    Table(TableFault),
}

impl From<TableFault> for BankFault {
    ghost from_gives = { λ e f. f ≡ Table e };

    fn from(e: TableFault) -> BankFault {
        BankFault::Table(e)
    }
}
