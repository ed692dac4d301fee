//! A row with its answer. Nothing is proved of a row but that its answer comes: what is right, the
//! file `stdout` says.

use crate::analyses::{self, Boxes};
use crate::composites::{self, Blind, Counter, Eager, Guess, Question, question_of};
use crate::setting::Setting;
use crate::{predicates, reached};
use cases_reader::{Row, RowFault, printed};
use cpa_callstack::Callstack;
use cpa_composite::Handed;
use cpa_iface::{Location, Plain};
use cpa_predicate::Predicate;
use cpa_reached::Reached;
use cpa_value::Value;
use std::alloc::{AllocError, Global};

/// Whose calls the rows name.
#[derive(Clone, Copy)]
pub enum Subject {
    /// Analyses, each by itself.
    Analyses,
    Predicates,
    ReachedSet,
    /// Composites, turns over them and whole analyses.
    Composites,
}

/// What the rows so far have set, and what they call.
#[derive(Drop)]
pub struct Rows {
    subject: Subject,
    setting: Setting,
    predicate: Box<Predicate>,
    reached: Reached,
}

impl Rows {
    /// Nothing is set. The reached set begins with one entry that has no elements.
    pub fn new(alloc: Global) -> Result<Rows, AllocError> {
        let predicate = Box::new(alloc, Predicate::new())?;
        let reached = Reached::new(alloc, Vec::new(alloc), Vec::new(alloc))?;
        Ok(Rows {
            subject: Subject::Analyses,
            setting: Setting::new(alloc),
            predicate,
            reached,
        })
    }

    /// A row with its answer. An empty line, a remark and a row that sets something stay as they
    /// are.
    pub fn answered(
        &mut self,
        alloc: Global,
        boxes: &mut Boxes,
        line: &str,
    ) -> Result<String, AllocError> {
        let mut answer = String::new(alloc);
        let told = self.push_answer(alloc, &mut answer, boxes, line);
        printed(alloc, line, answer.as_str(), told)
    }

    /// Adds the answer of a row, or nothing where the row asks nothing.
    fn push_answer(
        &mut self,
        alloc: Global,
        out: &mut String,
        boxes: &mut Boxes,
        line: &str,
    ) -> Result<(), RowFault> {
        if line.is_empty() || line.starts_with("#") {
            return Ok(());
        }
        let row = Row::of(alloc, line)?;
        match row.words.as_slice() {
            ["rows", word] => self.turn_to(alloc, word),
            _ => self.push_named(alloc, out, boxes, &row.words, &row.parts),
        }
    }

    /// The next rows name the calls of the subject of this word, for which nothing is set.
    fn turn_to(&mut self, alloc: Global, word: &str) -> Result<(), RowFault> {
        self.subject = subject_of(word)?;
        self.setting = Setting::new(alloc);
        Ok(())
    }

    /// Adds the answer of a row on the present subject, or nothing where the row sets something.
    fn push_named(
        &mut self,
        alloc: Global,
        out: &mut String,
        boxes: &mut Boxes,
        words: &[&str],
        parts: &[&str],
    ) -> Result<(), RowFault> {
        if self.setting.set(alloc, words, parts)? {
            return Ok(());
        }
        let setting = &self.setting;
        match self.subject {
            Subject::Analyses => analyses::push_answer(alloc, out, boxes, setting, words, parts),
            Subject::Predicates => {
                let predicate = &mut *self.predicate;
                predicates::push_answer(alloc, out, predicate, setting, words, parts)
            }
            Subject::ReachedSet => {
                reached::push_answer(alloc, out, &mut self.reached, words, parts)
            }
            Subject::Composites => push_composites(alloc, out, setting, words, parts),
        }
    }
}

/// The subject that a word names.
fn subject_of(word: &str) -> Result<Subject, RowFault> {
    match word {
        "analyses" => Ok(Subject::Analyses),
        "predicates" => Ok(Subject::Predicates),
        "reached" => Ok(Subject::ReachedSet),
        "composites" => Ok(Subject::Composites),
        _ => Err(RowFault::Unreadable),
    }
}

/// Adds the answer of a row that calls a composite.
fn push_composites(
    alloc: Global,
    out: &mut String,
    setting: &Setting,
    words: &[&str],
    parts: &[&str],
) -> Result<(), RowFault> {
    out.push_str(" = ")?;
    push_asked(alloc, out, setting, &question_of(alloc, words, parts)?)
}

/// Adds the answer of a composite. Its analyses are new for each row, so that no row depends on
/// what another one asked.
fn push_asked(
    alloc: Global,
    out: &mut String,
    setting: &Setting,
    question: &Question,
) -> Result<(), RowFault> {
    let mut handed = Vec::new(alloc);
    handed.reserve(8)?;
    handed.push_reserved(Handed {
        analysis: Box::new(alloc, Plain(Location))?,
    });
    handed.push_reserved(Handed {
        analysis: Box::new(alloc, Plain(Callstack))?,
    });
    handed.push_reserved(Handed {
        analysis: Box::new(alloc, Value::new())?,
    });
    handed.push_reserved(Handed {
        analysis: Box::new(alloc, Plain(Blind::new(0)))?,
    });
    handed.push_reserved(Handed {
        analysis: Box::new(alloc, Plain(Blind::new(3)))?,
    });
    handed.push_reserved(Handed {
        analysis: Box::new(alloc, Guess)?,
    });
    handed.push_reserved(Handed {
        analysis: Box::new(alloc, Counter::new())?,
    });
    handed.push_reserved(Handed {
        analysis: Box::new(alloc, Eager)?,
    });
    composites::push_asked(alloc, out, handed, setting, question)
}
