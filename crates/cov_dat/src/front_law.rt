ghost use Rattle.cov_dat.specs.FrontLaw.{ReadsByFront};

/// A text reads as its first 4,294,967,297 bytes: so a file past the limit needn't be read to its end.
pub fn front_is_enough()
    ensures { ReadsByFront }
{}
