//! How the numbers of a feature are read.

use streetmap_decimal::{Placement, Rounding, Scale, Shift};

/// What a number within the properties becomes if it is not whole.
#[derive(Clone, Copy, PartialEq, Eq, Drop)]
pub enum Fractions {
    /// It stays a number, which the reader of features refuses.
    Number,
    /// It becomes the text of its digits, as they are written.
    Text,
}

/// How the numbers of a feature are read.
#[derive(Clone, Copy, PartialEq, Eq)]
pub struct Numbers {
    /// The position of the map in the grid, or none if its coordinates are the grid's.
    pub placement: Option<Placement>,
    /// What a number within the properties becomes if it is not whole.
    pub fractions: Fractions,
}

impl Numbers {
    ghost use Rattle.std.specs.Prelude.{◌≡◌};
    ghost use Rattle.streetmap_placing.specs.Options.{IsPlacementOf};

    /// The numbers by the options of a command line: a scale, a shift, whether coordinates are
    /// rounded, and what fractions become. If none of the first three is given, coordinates stay as
    /// they are; otherwise the scale is 1 if it is not given, and the shift 0 if it is not given.
    pub fn new(
        scale: Option<Scale>,
        shift: Option<Shift>,
        rounding: Rounding,
        fractions: Fractions,
    ) -> Numbers
        ensures placement { IsPlacementOf scale shift rounding result.placement }
        ensures fractions { result.fractions ≡ fractions }
    {
        Numbers {
            placement: Numbers::placement_of(scale, shift, rounding),
            fractions,
        }
    }

    fn placement_of(
        scale: Option<Scale>,
        shift: Option<Shift>,
        rounding: Rounding,
    ) -> Option<Placement>
        ensures { IsPlacementOf scale shift rounding result }
    {
        if let (None, None, Rounding::Exact) = (scale, shift, rounding) {
            return None;
        }
        let scale = match scale {
            Some(scale) => scale,
            None => Scale::one(),
        };
        let shift = match shift {
            Some(shift) => shift,
            None => Shift::none(),
        };
        Some(Placement {
            shift,
            scale,
            rounding,
        })
    }
}
