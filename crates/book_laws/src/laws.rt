// What holds of the calls that change a book.
ghost use Rattle.book_laws.specs.Laws.{KeysBelongToOnePlace, FilingEntersWhatForms, WithdrawingGivesBack, ReplacingByItselfAltersNothing};

#[tactic(auto, using(crate::proofs::Belongs::keys_belong))]
pub fn keys_belong_to_one_place()
    ensures { KeysBelongToOnePlace }
{}

#[tactic(auto, using(crate::proofs::Filed::filed))]
pub fn filing_enters_what_forms()
    ensures { FilingEntersWhatForms }
{}

#[tactic(auto, using(crate::proofs::Undone::withdrawn))]
pub fn withdrawing_gives_back()
    ensures { WithdrawingGivesBack }
{}

#[tactic(auto, using(crate::proofs::Undone::replaced))]
pub fn replacing_by_itself_alters_nothing()
    ensures { ReplacingByItselfAltersNothing }
{}
