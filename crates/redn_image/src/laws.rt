//! Laws of images and their bytes. A call of one does nothing.

ghost use Rattle.redn_image.specs.Laws.{NotRefused, OneImage, OneSpelling};

/// Bytes spell at most one image, an image has one spelling, and this spelling isn't refused.
pub fn an_image_has_one_spelling()
    ensures image { OneImage }
    ensures spelling { OneSpelling }
    ensures accepted { NotRefused }
{}
