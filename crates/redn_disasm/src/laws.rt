//! Laws of listings. A call of one does nothing.

ghost use Rattle.redn_disasm.specs.Laws.{ListingsAreOfOne, ListingsAreShort, ListingsComeBack, OneMeaning};

/// A text is the listing of one image, or has one first line that isn't the next one possible, or
/// rows that break one rule first.
pub fn a_text_has_one_meaning()
    ensures { OneMeaning }
{}

/// The listing of an image means that image and no other, and is short enough to be read as a file.
pub fn a_listing_means_its_image()
    ensures back { ListingsComeBack }
    ensures alone { ListingsAreOfOne }
    ensures short { ListingsAreShort }
{}
