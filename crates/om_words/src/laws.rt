// Laws of the definitions.
ghost use Rattle.om_words.specs.Laws.{WrongPlacesAreFirst};

/// The place of wrong words is that of the first word with which no sentence goes on.
#[tactic(auto, using(crate::proofs::WrongPlaces::first_wrong))]
pub fn wrong_places_are_first()
    ensures { WrongPlacesAreFirst }
{}
