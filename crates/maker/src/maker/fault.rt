// Why no table was made, as a fault.
ghost use Rattle.std.specs.Prelude.{◌≡◌};
ghost use Rattle.maker.specs.Makers.{fault_by};

use super::NoTable;
use octets::Fault;

// A maker that is lent as many words as it asks for is never short of them, so that it can only be memory that is.
impl From<NoTable> for Fault {
    ghost from_gives = { λ why fault. fault ≡ fault_by why };

    fn from(why: NoTable) -> Fault {
        match why {
            NoTable::Refused(fault) => fault,
            NoTable::Short => Fault::Memory,
        }
    }
}
