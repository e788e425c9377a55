#![tactic(auto)]

ghost use Rattle.machine.specs.Claims.{RunsByTheRules, TurnsAddUp, AlikeOverStores, AlikeOverEqualMosts, KInTurns};

// What is proved of every run, once, by the rules and turn by turn: a typed run has one outcome,
// which fits its type; the machine comes to it when it was granted the units, is going until then,
// and is never stuck; turns add up; and over two stores the run ends alike unless one is full. The
// function does nothing.
pub fn runs_hold()
    ensures runs { RunsByTheRules }
    ensures turns { TurnsAddUp }
    ensures stores { AlikeOverStores }
    ensures equal { AlikeOverEqualMosts }
    ensures worked { KInTurns }
{}
