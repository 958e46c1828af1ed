ghost use Rattle.std.specs.Prelude.{⊤, ◌≡◌, ◌+◌, [], ◌∷◌};

use heap_space::Space;
use std::alloc::AllocError;
use std::test::Fail;
use sweep_steps::{SweepState, Sweeper, sweep};

// Units that are numbered from 1 on, the last one swept first, each with its number for a birth.
#[derive(Drop)]
struct Countdown(u64);

impl Sweeper for Countdown {
    ghost left = { λ s. s.0 };

    ghost stands = { λ _ _. ⊤ };

    ghost steps = { λ s _ t _ births. (t.0 + 1 ≡ s.0) × (births ≡ s.0 ∷ []) };

    fn waiting(&self) -> u64 {
        self.0
    }

    fn sweep_one(&mut self, _space: &mut Space, freed: &mut Vec<u64>) -> Result<(), AllocError> {
        freed.push(self.0)?;
        self.0 -= 1;
        Ok(())
    }
}

#[test]
fn births_come_in_rising_order(rt: HostRuntime) -> Result<(), Fail> {
    let mut space = Space::new(rt.alloc(), 16, 64)?;
    let mut units = Countdown(5);
    let mut freed = Vec::new(rt.alloc());
    freed.push(9)?;
    assert_eq!(rt;
        sweep(3, &mut units, &mut space, &mut freed)?,
        SweepState::Working
    );
    assert_eq!(rt; freed.as_slice(), [9, 3, 4, 5].as_slice());
    assert_eq!(rt;
        sweep(3, &mut units, &mut space, &mut freed)?,
        SweepState::Finished
    );
    assert_eq!(rt; freed.as_slice(), [9, 3, 4, 5, 1, 2].as_slice());
    assert_eq!(rt;
        sweep(3, &mut units, &mut space, &mut freed)?,
        SweepState::Finished
    );
    Ok(())
}
