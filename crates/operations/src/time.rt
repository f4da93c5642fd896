// pc and time after a cycle.
ghost use Rattle.std.specs.Prelude.{◌≡◌};
ghost use Rattle.operations.specs.Time.{next_pc, is_late};

pub fn next_pc(pc: u16, ended: bool) -> u16
    ensures { result ≡ next_pc 16 pc ended }
{
    if ended { pc } else { pc.wrapping_add(1) }
}

// The time after the cycle or the cycle counter has more than 32 bits.
pub fn is_late(time: u32, step: u32, counter: u32, ended: bool) -> bool
    ensures { result ≡ is_late time step counter ended }
{
    (!ended & time.checked_add(step).is_none()) | counter.checked_add(1).is_none()
}
