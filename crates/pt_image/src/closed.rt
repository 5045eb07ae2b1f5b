//! A law of the images of words that nobody shares.

ghost use Rattle.pt_image.specs.Books.{RestingBookIsImages, RestingImageIsGood};

/// Words that meet the rule with one view of the whole space at rest, as those of a closed space do, make a good image, and the
/// book of that view is the image's.
pub fn resting_words_make_a_good_image()
    ensures good { RestingImageIsGood }
    ensures book { RestingBookIsImages }
{}
