//! Theorems about the definitions.
ghost use Rattle.slp_image.specs.Rows.{ImageRows};

/// What the example images mean or why they are rejected, and the cost of reading them.
pub fn image_rows()
    ensures { ImageRows }
{}
