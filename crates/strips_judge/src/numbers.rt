//! Several atoms at once, by their numbers.
ghost use Rattle.std.specs.Prelude.{◌≡◌, ◌<◌, List, All, length};
ghost use Rattle.formulas.specs.declared.atoms.Atom.{Atom};
ghost use Rattle.strips_judge.specs.NumberedState.{AreNumbers, state_of};
ghost use Rattle.strips_judge.specs.State.{with_all, without};

use crate::state::NumberedState;

/// Makes the atoms with these numbers false.
#[inline(always)]
pub fn clear_all(state: &mut NumberedState<'_>, numbers: &[u32])
    ensures state { (atoms : List Atom) → AreNumbers state.old.atoms atoms numbers.now → state_of state.new ≡ without (state_of state.old) atoms }
    ensures atoms { state.new.atoms ≡ state.old.atoms }
    ensures initial { state.new.initial ≡ state.old.initial }
{
    for number in numbers {
        state.clear(*number as usize);
    }
}

/// Makes the atoms with these numbers true.
#[inline(always)]
pub fn set_all(state: &mut NumberedState<'_>, numbers: &[u32])
    requires { All (λ number. number < length state.old.atoms) numbers.now }
    ensures state { (atoms : List Atom) → AreNumbers state.old.atoms atoms numbers.now → state_of state.new ≡ with_all (state_of state.old) atoms }
    ensures atoms { state.new.atoms ≡ state.old.atoms }
    ensures initial { state.new.initial ≡ state.old.initial }
{
    for number in numbers {
        state.set(*number as usize);
    }
}
