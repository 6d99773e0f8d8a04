//! The arithmetic of added code, apart from its run: how a number is made by two instructions, and what sums of
//! products of words are as integers.
#![tactic(auto)]

ghost use Rattle.check_numbers.specs.Laws.{PartsLaw, SumLaw, PairWordsLaw, SignedLaw, TripWordsLaw, DifferWordsLaw, LeastLaw, ShortLaw};

/// A signed number of 32 bits is its two parts, added as numbers of 32 bits.
pub fn parts_make_the_number()
    ensures { PartsLaw }
{}

/// Terms that are summed up word by word are the integer of which the sum is the word.
pub fn sums_are_integers()
    ensures { SumLaw }
{}

/// The test of two accesses of the same shape may be worked out in words.
pub fn pairs_are_tested_in_words()
    ensures { PairWordsLaw }
{}

/// The word of a sum may be read as a signed number.
pub fn sums_are_signed()
    ensures { SignedLaw }
{}

/// The number of turns that an order tells may be worked out in words.
pub fn trips_are_told_in_words()
    ensures { TripWordsLaw }
{}

/// The number of turns until a difference is 0 may be worked out in words.
pub fn differences_are_told_in_words()
    ensures { DifferWordsLaw }
{}

/// The least signed word is no difference that a check takes.
pub fn the_least_difference_is_too_far()
    ensures { LeastLaw }
{}

/// Whether a word is a signed number of 32 bits may be told by `addiw`.
pub fn short_words_are_told()
    ensures { ShortLaw }
{}
