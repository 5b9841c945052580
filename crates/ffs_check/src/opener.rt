//! How a run gets its image: it opens it by its name, for reading alone.
ghost use Rattle.std.specs.Prelude.{◌≡◌, ℕ, List, MatchResult};

use ffs_image::{Image, OpenFault, RawImage, System};

/// What opens the image that the arguments name.
pub trait Opener {
    /// An image that it opens.
    type Image: Image + Drop;

    /// An image was opened under a name: the opener before, the name, the image, and the opener
    /// after.
    ghost opens: { Self → List ℕ → Self.Image → Self → Type 0 };

    /// No image of a name could be opened: the opener before, the name, and the opener after.
    ghost refuses: { Self → List ℕ → Self → Type 0 };

    /// Opens the image of this name for reading.
    ///
    /// # Errors
    /// The image can't be opened.
    fn open(&mut self, name: &str) -> Result<Self::Image, OpenFault>
        ensures { MatchResult result (λ image. opens self.old name.now image self.new)
            (λ _. refuses self.old name.now self.new) };
}

/// A system opens its files.
impl<Y: System> Opener for Y {
    type Image = RawImage<Y::File>;

    ghost use Rattle.ffs_image.specs.System.{IsOpened, OpenFails};

    ghost opens = { λ old name image new. IsOpened Y.System old new name image.source
        × (image.source.failures ≡ 0) };

    ghost refuses = { λ old name new. OpenFails Y.was_looked_up Y.was_opened Y.File.was_sought
        old new name };

    fn open(&mut self, name: &str) -> Result<RawImage<Y::File>, OpenFault> {
        RawImage::open(self, name)
    }
}
