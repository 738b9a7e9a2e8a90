// What follows for every order: each law is the contract of a function that does nothing.
ghost use Rattle.gr_heur.specs.Laws.{PutsOneIn, TakesOneOut};

/// A variable that is put back is in, and no other one changes.
pub fn one_is_put_in()
    ensures { PutsOneIn }
{}

/// A variable that is taken out is out, and no other one changes.
pub fn one_is_taken_out()
    ensures { TakesOneOut }
{}
