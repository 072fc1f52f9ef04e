// Why a set is not read: refusals 1 to 8 and 21, or refusal 9.
ghost use Rattle.std.specs.Prelude.{◌≡◌};
ghost use Rattle.set.specs.declared.faults.Fault.TheVariants as F;

use order::Cycle;

#[derive(Clone, Copy, PartialEq, Eq)]
pub enum Fault {
    Unread(reader::Fault),
    Cycle(Cycle),
}

impl From<reader::Fault> for Fault {
    ghost from_gives = { λ e f. f ≡ F.Unread e };

    fn from(e: reader::Fault) -> Fault {
        Fault::Unread(e)
    }
}

impl From<Cycle> for Fault {
    ghost from_gives = { λ c f. f ≡ F.Cycle c };

    fn from(c: Cycle) -> Fault {
        Fault::Cycle(c)
    }
}
