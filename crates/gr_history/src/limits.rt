ghost use Rattle.std.specs.Prelude.{◌≡◌, ◌+◌};
ghost use Rattle.gr_stamp.specs.declared.stamp.TheConstants.{LIMIT};
ghost use Rattle.gr_vector.specs.declared.gap.TheConstants.{END};

/// Vectors have room for each region version up to the greatest.
pub fn vectors_hold_all_versions()
    ensures { END ≡ LIMIT + 1 }
{}
