//! Laws of checked texts: functions with an empty body, whose contract is the law. They are stated
//! in `specs/Laws.antt` and proved in `specs/lemmas/`.
ghost use Rattle.std.specs.Prelude.{◌≡◌};
ghost use Rattle.cpa_expr.specs.declared.shape.TheConstants.{MAX_HEIGHT};
ghost use Rattle.cpa_model.specs.declared.program.TheConstants.{MAX_CELLS, MAX_POINTS};
ghost use Rattle.c_core_checked.specs.Laws.{OneCheckedText, SoundTextsAreWithinLimits};

/// A tree has one checked text.
pub fn there_is_one_checked_text()
    ensures { OneCheckedText }
{}

/// That of a sound text has no more cells and points than a program may have, and no higher
/// expression.
pub fn sound_texts_are_within_limits()
    ensures { SoundTextsAreWithinLimits }
{}

/// What a program may have: cells and points, and the height of an expression.
pub fn limits()
    ensures cells { MAX_CELLS ≡ 65536 }
    ensures points { MAX_POINTS ≡ 65536 }
    ensures height { MAX_HEIGHT ≡ 500 }
{}
