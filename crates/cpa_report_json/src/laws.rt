//! The law of texts and values. The function does nothing: its contract is the law.
ghost use Rattle.std.specs.Prelude.{◌≡◌, ◌≤◌, Some};
ghost use Rattle.serde_json.specs.Data.{Data, depth};
ghost use Rattle.serde_json.specs.Read.{max_depth, read};
ghost use Rattle.serde_json.specs.Written.{compact_text};
ghost use Rattle.cpa_report_json.specs.Plain.{IsPlain};

/// The compact text of a plain value that nests no deeper than `serde_json` reads is read as this
/// value.
pub fn texts_are_read_back()
    ensures { (d : Data) → IsPlain d → depth d ≤ max_depth → read (compact_text d) ≡ Some d }
{}
