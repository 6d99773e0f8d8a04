ghost use Rattle.register_equations.specs.FormLaws.{FormLaw, TurnsLaw, ResultLaw, ResultTurnsLaw, AccessTurnsLaw, AskLaw};
ghost use Rattle.register_equations.specs.OneResult.{
  OneFormLaw,
  OneUnconfirmedLaw,
  OneDutiesLaw,
  OneEquationsLaw,
};

/// Forms that solve the equations of a nest are true of each run that executes its words, as long as no word writes
/// to a cell that it does not use and the values that instructions on words of 32 bits owe are numbers of 32 bits.
/// What `cells`, `classes` and `solve` give for a nest are such forms, where no induction stays unconfirmed, and each
/// word that uses a cell then accesses its bytes and no others.
pub fn forms_are_right()
    ensures visit { FormLaw }
    ensures turns { TurnsLaw }
    ensures results { ResultLaw }
    ensures results_in_turns { ResultTurnsLaw }
{}

/// In the turns in which a run executes the words of a nest, and up to each of their visits no word writes to a cell
/// that it does not use and the listed duties are met, each access of a word that uses a cell is one of exactly the
/// cell's bytes: also the last of them.
pub fn accesses_in_turns()
    ensures { AccessTurnsLaw }
{}

/// What is found of the equations of a nest is determined by their definition: the form of each location at each word,
/// the duties, and the least induction that is unconfirmed.
pub fn one_result()
    ensures form { OneFormLaw }
    ensures unconfirmed { OneUnconfirmedLaw }
    ensures duties { OneDutiesLaw }
    ensures all { OneEquationsLaw }
{}

/// Where the forms hold at the visit of a word that uses a cell, it asks memory for the cell's bytes and no others.
pub fn uses_ask_for_cells()
    ensures { AskLaw }
{}
