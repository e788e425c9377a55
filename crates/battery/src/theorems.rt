// What is proved of the rules, once. The functions do nothing: each carries theorems.
ghost use Rattle.battery.specs.Claims.{EveryRunEnds, AppendingIsLawful, OneTree, TypedValuesShow, DivisionDropsTheFraction};
ghost use Rattle.battery.specs.Published.{EvaluatesAsPublished, ComparesAsPublished};
ghost use Rattle.battery.specs.Worked.{KNear, KFar, KFull, Division, Joins24, Joins25, EqualMakes, CallsItself};

// A typed run ends by the rules, over every lawful store, with what fits its type; a store that
// appends is lawful; a value of a type shows one tree; division drops the fraction.
pub fn rules_hold()
    ensures ends { EveryRunEnds }
    ensures appends { AppendingIsLawful }
    ensures one { OneTree }
    ensures shows { TypedValuesShow }
    ensures divides { DivisionDropsTheFraction }
{}

// A judgement comes to a value exactly when one of the published rules gives it, and a comparison
// exactly when a clause of eq does.
pub fn as_published()
    ensures evaluates { EvaluatesAsPublished }
    ensures compares { ComparesAsPublished }
{}

pub fn worked_cases()
    ensures near { KNear }
    ensures far { KFar }
    ensures full { KFull }
    ensures division { Division }
    ensures joined { Joins24 }
    ensures overlong { Joins25 }
    ensures equal { EqualMakes }
    ensures itself { CallsItself }
{}
