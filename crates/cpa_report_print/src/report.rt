//! What is told of a program, as data. Its text is `report_text` of `specs/Reports.antt`.
ghost use Rattle.std.specs.Prelude.{◌≡◌};
ghost use Rattle.cpa_report_print.specs.Reports.{form_of, verdict_of, verdict_words};

use cpa_cnf::Line;
use cpa_iface::{Precision, Refined, Turn};
use cpa_ints::DataModel;
use cpa_model::{Elem, Path, Seq};

/// What a report says of a program.
#[derive(Clone, Copy, PartialEq, Eq)]
pub enum Verdict {
    /// It is safe.
    True,
    /// It is not: it calls `reach_error`.
    False,
    /// Unknown, since the turns of a round were spent.
    Turns,
    /// Unknown, since the rounds were spent.
    Rounds,
    /// Unknown, since a search learnt as many clauses as it may.
    Learnt,
    /// Unknown, since a path weighs more than a query may.
    Gates,
    /// Unknown, since a path that has no run gave nothing new to keep.
    NoNew,
    /// It is safe, and each obligation of its entries is refuted.
    Proof,
}

/// An entry of a reached set, as a report lists it: its number, and one element for each analysis.
#[derive(Drop)]
pub struct Listed {
    pub number: u32,
    pub elems: Seq<Elem>,
}

/// The verdict, with what is told for it.
#[derive(Drop)]
pub enum Body {
    True {
        entries: Seq<Listed>,
    },
    False {
        inputs: Seq<i128>,
        steps: u64,
    },
    Turns {
        journal: Seq<Turn>,
    },
    Rounds {
        path: Path,
        history: Seq<Refined>,
    },
    Learnt {
        path: Path,
        lines: Seq<Line>,
    },
    Gates {
        path: Path,
        weight: u64,
    },
    NoNew {
        path: Path,
        precisions: Seq<Precision>,
    },
    Proof {
        entries: Seq<Listed>,
        logs: Seq<Seq<Line>>,
    },
}

/// What is told of a program: the length of its text in bytes, how many points, cells and edges its
/// automaton has, the data model in which it was read, and the verdict.
#[derive(Drop)]
pub struct Report {
    pub text: u32,
    pub points: u32,
    pub cells: u32,
    pub edges: u32,
    pub model: DataModel,
    pub body: Body,
}

/// The form of the reports of a data model, which stands in each.
pub fn form_of(model: DataModel) -> u32
    ensures { result ≡ form_of model }
{
    match model {
        DataModel::Lp64 => 1,
        DataModel::Ilp32 => 2,
    }
}

impl Body {
    /// The verdict that the body is of.
    pub fn verdict(&self) -> Verdict
        ensures { result ≡ verdict_of self.now }
    {
        match self {
            Body::True { .. } => Verdict::True,
            Body::False { .. } => Verdict::False,
            Body::Turns { .. } => Verdict::Turns,
            Body::Rounds { .. } => Verdict::Rounds,
            Body::Learnt { .. } => Verdict::Learnt,
            Body::Gates { .. } => Verdict::Gates,
            Body::NoNew { .. } => Verdict::NoNew,
            Body::Proof { .. } => Verdict::Proof,
        }
    }
}

impl Verdict {
    /// The words of the verdict, which are the first line of a report.
    pub fn words(self) -> &'static str
        ensures { result.now ≡ verdict_words self }
    {
        match self {
            Verdict::True => "TRUE",
            Verdict::False => "FALSE",
            Verdict::Turns => "UNKNOWN turns",
            Verdict::Rounds => "UNKNOWN rounds",
            Verdict::Learnt => "UNKNOWN learnt",
            Verdict::Gates => "UNKNOWN gates",
            Verdict::NoNew => "UNKNOWN new",
            Verdict::Proof => "PROOF",
        }
    }
}
