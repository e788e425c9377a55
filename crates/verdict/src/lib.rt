#![tactic(auto)]

ghost use Rattle.verdict.specs.Claims.{ReadsExactly, SpeltUnlessMisplaced, MisplacedFirst, FaultlessIfTyped, FirstBroken, AcceptsExactlyTheTyped, OneCard, TypingFaults, RefusesExactly, FormedByForm, SpeltInSequence};
ghost use Rattle.verdict.specs.Cases.{KAccepted, KWithout4, KWithout16};

// What is proved of every image, once: the card that its bytes spell, the record that cannot follow,
// the typing of its functions, and the verdict. The function does nothing.
pub fn verdict_holds()
    ensures reads { ReadsExactly }
    ensures spelt { SpeltUnlessMisplaced }
    ensures first { MisplacedFirst }
    ensures faultless { FaultlessIfTyped }
    ensures broken { FirstBroken }
    ensures accepts { AcceptsExactlyTheTyped }
    ensures one { OneCard }
    ensures faults { TypingFaults }
    ensures refuses { RefusesExactly }
    ensures formed { FormedByForm }
    ensures sequence { SpeltInSequence }
    ensures card { KAccepted }
    ensures without4 { KWithout4 }
    ensures without16 { KWithout16 }
{}
