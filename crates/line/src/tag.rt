// A tag: one seat with no store.
ghost use Rattle.std.specs.Prelude.{◌≡◌, ◌^◌, ◌<◌, true};
ghost use Rattle.address.specs.Parts.{number};
ghost use Rattle.line.specs.Stages.{sound};

use crate::stage::Stage;
use address::Address;

#[derive(Clone, Copy)]
pub struct Tag {
    pub(crate) address: Address,
    pub(crate) stage: Stage,
    ghost narrow: { number address < 2 ^ 64 },
    ghost sound: { sound stage ≡ true },
}
