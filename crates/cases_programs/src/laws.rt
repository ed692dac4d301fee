//! A law for programs that are given statement by statement, as those of tests and of rows: tables
//! that fit such a program show it well formed. The law is shown in `specs/Samples.antt`.

ghost use Rattle.cases_programs.specs.Samples.{TablesSuffice};

/// A law: a program whose tables fit, whose cells' starts are in range and which is small enough,
/// is well formed.
pub fn tables_suffice()
    ensures { TablesSuffice }
{}
