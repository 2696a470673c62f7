// What commands and ticks do to the EEPROM's blocks: copy, recall and lock.
ghost use Rattle.std.specs.Prelude.{◌≡◌, false, None};
ghost use Rattle.ds2760.specs.Map.{eec};
ghost use Rattle.ds2760.specs.Runs.{Follows, tick};
ghost use Rattle.ds2760.specs.Soundness.{waits};
ghost use Rattle.ds2760.specs.States.{with_copying};
ghost use Rattle.ds2760.specs.Commands.{replaced, recalled, copied, locked, is_locked, copy_asked, recall_asked, lock_asked, started, ticked, recalled_status};
ghost use Rattle.ds2760.specs.Effects.{Whole, CopiesComplete};
ghost use Rattle.ds2760.specs.Meaning.{state_of};

use crate::block::Block;
use crate::progress::Copying;
use crate::store::Store;

// How many ticks a copy takes.
const COPY_TICKS: u8 = 10;

#[tactic(auto, using(crate::proofs::Halves::upper))]
fn replace_block(block: Block, from: &[u8; 32], into: &mut [u8; 32])
    ensures { into.new ≡ replaced block from.now into.old }
{
    match block {
        Block::Zero => into[..16].copy_from_slice(&from[..16]),
        Block::One => into[16..].copy_from_slice(&from[16..]),
    }
}

// Bits 5, 4 and 3 of 31h.
pub(crate) fn status_in(eeprom: &[u8; 32]) -> u8
    ensures { result ≡ recalled_status eeprom.now }
{
    eeprom[0x11] & 0x38
}

impl Store {
    // Has a copy of the block wait, unless the block is locked or a copy runs.
    pub(crate) fn ask_copy(&mut self, block: Block)
        ensures { state_of self.new ≡ copy_asked block (state_of self.old) }
    {
        if !self.locks.is_set(block) && !self.is_copying() {
            self.copying = Some(Copying::Waiting(block));
        }
    }

    // Recalls the block, unless a copy runs.
    pub(crate) fn ask_recall(&mut self, block: Block)
        ensures { state_of self.new ≡ recall_asked block (state_of self.old) }
    {
        if !self.is_copying() {
            self.recall(block);
        }
    }

    // Locks the block for good and clears LOCK, if LOCK is 1 and no copy runs. A copy that waited has
    // begun by then: at other times one may wait, so that the store itself cannot say it.
    pub(crate) fn ask_lock(&mut self, block: Block)
        requires { waits self.old.copying ≡ false }
        ensures { state_of self.new ≡ lock_asked block (state_of self.old) }
    {
        if self.lock && !self.is_copying() {
            self.lock = false;
            self.locks.set(block);
        }
    }

    fn recall(&mut self, block: Block)
        ensures { state_of self.new ≡ recalled block (state_of self.old) }
    {
        let eeprom = self.eeprom;
        replace_block(block, &eeprom, &mut self.shadow);
        if block == Block::One {
            self.status = status_in(&eeprom);
        }
    }

    // Begins a copy that waits.
    pub(crate) fn start_copy(&mut self)
        ensures after { state_of self.new ≡ started (state_of self.old) }
        ensures begun { waits self.new.copying ≡ false }
        ensures progress { self.new.progress ≡ self.old.progress }
    {
        if let Some(Copying::Waiting(block)) = self.copying {
            self.copying = Some(Copying::Running {
                block,
                ticks: COPY_TICKS,
            });
        }
    }

    // Lets a tick pass: the tenth of a copy makes it.
    #[tactic(auto, using(crate::proofs::Runs::follows))]
    pub fn tick(&mut self)
        ensures after { state_of self.new ≡ ticked (state_of self.old) }
        ensures lawful { Follows tick (state_of self.old) (state_of self.new) }
        ensures copies { CopiesComplete }
        ensures whole { Whole (state_of self.old) }
    {
        self.whole();
        self.count_down();
    }

    // Takes a tick from a copy that runs.
    fn count_down(&mut self)
        ensures { state_of self.new ≡ ticked (state_of self.old) }
    {
        if let Some(Copying::Running { block, ticks }) = self.copying {
            if ticks == 1 {
                self.copy(block);
            } else {
                self.copying = Some(Copying::Running {
                    block,
                    ticks: ticks - 1,
                });
            }
        }
    }

    // The EEPROM block takes the shadow's bytes, and no copy runs any more.
    fn copy(&mut self, block: Block)
        ensures { state_of self.new ≡ with_copying None (copied block (state_of self.old)) }
    {
        let shadow = self.shadow;
        replace_block(block, &shadow, &mut self.eeprom);
        self.copying = None;
    }
}
