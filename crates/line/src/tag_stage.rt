// How far a tag has come.
ghost use Rattle.std.specs.Prelude.{◌≡◌};
ghost use Rattle.line.specs.Kinds.{seat_of};

use crate::stage::Stage;
use crate::tag::Tag;

impl Tag {
    // How far it has come since the last reset.
    pub fn stage(&self) -> Stage
        ensures { result ≡ (seat_of self.now).stage }
    {
        self.stage
    }
}
