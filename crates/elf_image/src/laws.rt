//! Laws of the definitions.
ghost use Rattle.std.specs.Prelude.{List, ◌≡◌, ℕ, length, Ok};
ghost use Rattle.elf_image.specs.declared.kinds.Image.{Image};
ghost use Rattle.elf_image.specs.Segments.{IsImage};
ghost use Rattle.elf_image.specs.Checks.{image_read};

/// What is read of a file is an accepted image.
pub fn image_law()
    ensures { (bytes : List ℕ) (pages : ℕ) (image : Image) → image_read bytes pages ≡ Ok image → IsImage (length bytes) pages image }
{}
