// The laws. Each function does nothing when it is called: its contract is the law.
ghost use Rattle.om_checks.specs.Laws.{FactsStay, MasksStay};
ghost use Rattle.om_checks.specs.Needs.{ChecksMayFail};

/// Facts on r29 that pass the check pass it after a call was made direct or goes past a pair, a pair or a block was dropped.
pub fn facts_stay()
    ensures { FactsStay }
{}

/// Masks that pass the check pass it after a call was made direct, a block dropped, an op replaced or a dead one deleted.
pub fn masks_stay()
    ensures { MasksStay }
{}

/// Masks may fail the check after a block is dropped into which another falls, and after a call goes past a pair.
pub fn checks_may_fail()
    ensures { ChecksMayFail }
{}
