// A law of the definitions: it is the contract of a function that does nothing.
ghost use Rattle.gr_words.specs.Cases.{EachLineIsOneCase};

/// Each command line is of one case: to decide a formula, to check a proof log, to make a formula, or unlawful.
pub fn each_line_is_one_case()
    ensures { EachLineIsOneCase }
{}
