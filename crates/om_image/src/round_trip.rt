// A written image is read as itself.
ghost use Rattle.om_image.specs.RoundTrip.{UnbrokenIsValid, WrittenIsRead};

/// The file of an image holds just this image, and breaks no rule of images, for all valid images whose numbers fit the
/// fields of the format. It does nothing: its clause is the law.
pub fn written_is_read()
    ensures { WrittenIsRead }
{}

/// An image is valid if its file breaks no rule of images, for all images whose numbers fit the fields of the format, whose
/// lists can be counted in them, and whose map has no stack. It does nothing: its clause is the law.
pub fn unbroken_is_valid()
    ensures { UnbrokenIsValid }
{}
