ghost use Rattle.match_pattern.specs.Grammar.{PatternsAreSpelled};
ghost use Rattle.match_pattern.specs.Reading.{FaultsStand};
ghost use Rattle.match_pattern.specs.Globs.{StarsStandForAnyRun};

/// A star stands for any run of bytes, and any other byte for itself.
pub fn stars_stand_for_any_run()
    ensures { StarsStandForAnyRun }
{}

/// A text is a pattern exactly where it is `<all_urls>`, or a scheme, `://`, a host and a path.
pub fn patterns_are_spelled()
    ensures { PatternsAreSpelled }
{}

/// A text that a byte of its host or its path breaks is broken there whatever follows the byte.
pub fn faults_stand()
    ensures { FaultsStand }
{}
