// A pack: a DS2760 at an address on the line.
#![tactic(auto)]

ghost use Rattle.std.specs.Prelude.{◌≡◌, true, false, [], ◌∷◌, map, Some, MatchResult};
ghost use Rattle.address.specs.Parts.{number};
ghost use Rattle.ds2760.specs.Map.{held};
ghost use Rattle.gauge.specs.Measures.{in_range};
ghost use Rattle.ds2760.specs.Runs.{slot, reset, tick, measure};
ghost use Rattle.line.specs.declared.presence.Presence.TheVariants.{Present};
ghost use Rattle.line.specs.Seats.{takes_seat, reset_seat};
ghost use Rattle.line.specs.Lives.{LawfulHistory, FollowsBy};
ghost use Rattle.pack.specs.Lives.{LawfulSeat, FollowsSeat, LivesAreLawful};
ghost use Rattle.pack.specs.Packs.{seat_of, new_seat, store_of, ticked_seat, measured_seat};

use address::Address;
use ds2760::Store;
use gauge::{Measurement, Refusal};
use line::{Line, Presence, Stage, Tag};

// Its address and stage are a tag's; once that is chosen, slots go to the store.
#[derive(Clone, Copy)]
pub struct Pack {
    tag: Tag,
    store: Store,
}

impl Pack {
    // A pack with this address and these EEPROM bytes, deaf.
    #[tactic(auto, using(crate::proofs::Lives::lives_are_lawful))]
    pub fn new(address: Address, eeprom: [u8; 32]) -> Pack
        ensures made { seat_of result ≡ new_seat (number address) eeprom }
        ensures lawful { LawfulSeat (number address) eeprom [] (seat_of result) }
        ensures history { LawfulHistory (record { address = number address; eeprom = Some eeprom; calls = [] }) (seat_of result) }
        ensures lives { LivesAreLawful }
    {
        Pack::deaf(address, &eeprom)
    }

    // By a reference, since that one is known to have 32 bytes.
    fn deaf(address: Address, eeprom: &[u8; 32]) -> Pack
        ensures made { seat_of result ≡ new_seat (number address) eeprom.now }
        ensures lawful { LawfulSeat (number address) eeprom.now [] (seat_of result) }
        ensures history { LawfulHistory (record { address = number address; eeprom = Some eeprom.now; calls = [] }) (seat_of result) }
    {
        Pack {
            tag: Tag::new(address),
            store: Store::new(*eeprom),
        }
    }

    // The byte at an address of its memory.
    pub fn held(&self, address: u16) -> u8
        ensures { result ≡ held address (store_of self.now) }
    {
        self.store.held(address)
    }

    // Lets a tick pass.
    #[tactic(auto, using(crate::proofs::Lives::followed, line::proofs::Lives::reached))]
    pub fn tick(&mut self)
        ensures after { seat_of self.new ≡ ticked_seat (seat_of self.old) }
        ensures lawful { FollowsSeat tick (seat_of self.old) (seat_of self.new) }
        ensures history { FollowsBy (tick ∷ []) (seat_of self.old) (seat_of self.new) }
    {
        self.store.tick();
    }

    // Takes a measurement, or refuses it and leaves all as it was.
    #[tactic(auto, using(crate::proofs::Lives::followed, line::proofs::Lives::reached))]
    pub fn measure(&mut self, measurement: Measurement) -> Result<(), Refusal>
        ensures cases { MatchResult result (λ _. (in_range measurement ≡ true) × (seat_of self.new ≡ measured_seat measurement (seat_of self.old))) (λ _. (in_range measurement ≡ false) × (seat_of self.new ≡ seat_of self.old)) }
        ensures lawful { FollowsSeat (measure measurement) (seat_of self.old) (seat_of self.new) }
        ensures history { FollowsBy (measure measurement ∷ []) (seat_of self.old) (seat_of self.new) }
    {
        self.store.measure(measurement)
    }
}

impl Line for Pack {
    ghost seats = { λ p. seat_of p ∷ [] };

    ghost narrow = { λ p. (p.tag.narrow, tt) };

    fn drive(&self) -> bool {
        match self.tag.stage() {
            Stage::Chosen => self.store.drive(),
            _ => self.tag.drive(),
        }
    }

    #[tactic(auto, using(crate::proofs::Lives::followed, line::proofs::Lives::reached))]
    fn slot(&mut self, level: bool)
        ensures after { seat_of self.new ∷ [] ≡ map (takes_seat level) (seat_of self.old ∷ []) }
        ensures lawful { FollowsSeat (slot level) (seat_of self.old) (seat_of self.new) }
        ensures history { FollowsBy (slot level ∷ []) (seat_of self.old) (seat_of self.new) }
    {
        match self.tag.stage() {
            Stage::Chosen => self.store.slot(level),
            _ => self.tag.slot(level),
        }
    }

    #[tactic(auto, using(crate::proofs::Lives::followed, line::proofs::Lives::reached))]
    fn reset(&mut self) -> Presence
        ensures present { result ≡ Present }
        ensures after { seat_of self.new ∷ [] ≡ map reset_seat (seat_of self.old ∷ []) }
        ensures lawful { FollowsSeat reset (seat_of self.old) (seat_of self.new) }
        ensures history { FollowsBy (reset ∷ []) (seat_of self.old) (seat_of self.new) }
    {
        self.store.reset();
        self.tag.reset()
    }
}
