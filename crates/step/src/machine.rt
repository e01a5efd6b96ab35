// A board as a run carries it from step to step. That its clock is sound is a field of the type: whoever makes one shows it, and
// no step asks for it.
ghost use Rattle.model.specs.Laws.Sound.{SoundClock};

use model::{Clock, Contents};

// The clock, and what loads and stores see or change. Beside it stand the buffer's halfwords, on which time does not depend, and
// the waits: an array is looked up by a number, and a struct with one in it would stand in memory throughout the run.
#[derive(Clone, Copy)]
pub struct Machine {
    pub clock: Clock,
    pub contents: Contents,
    ghost sound: { SoundClock clock },
}
