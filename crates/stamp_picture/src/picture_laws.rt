//! Laws of pictures. Each function does nothing; its contract is the law, over the definitions alone.
ghost use Rattle.stamp_picture.specs.PictureLaws.{OnePicture, WindowIsKept, CrowdedIsCounted};

/// There is at most one picture of a history in a window: `picture_of` makes it.
pub fn one_picture()
    ensures { OnePicture }
{}

/// In a window that doesn't end before it begins, what is drawn of a bar lies inside. So does a
/// point that is shown.
pub fn window_is_kept()
    ensures { WindowIsKept }
{}

/// The number of bars that `picture_of` refuses is that which the picture would have.
pub fn crowded_is_counted()
    ensures { CrowdedIsCounted }
{}
