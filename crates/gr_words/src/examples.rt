// Command lines that are lawful, and ones that are not: each is the contract of a function that does nothing.
ghost use Rattle.gr_words.specs.Examples.{DefaultsAreFilledIn, OptionsAreRead, DashesEndOptions, SomeAreLawful, OthersAreNot};

/// What the words behind `solve` mean.
pub fn words_behind_solve()
    ensures defaults { DefaultsAreFilledIn }
    ensures given { OptionsAreRead }
{}

/// What the words behind `check` mean.
pub fn words_behind_check()
    ensures { DashesEndOptions }
{}

/// Which command lines are lawful.
pub fn lawful_lines()
    ensures some { SomeAreLawful }
    ensures others { OthersAreNot }
{}
