//! The one public call. Its clauses are the headline, in the words of `specs/Answers.antt`.
//! Proved with `proofs/Headline.antt`, over what the other modules promise.
ghost use Rattle.std.specs.Prelude.{◌≡◌, ◌≤◌, map};
ghost use Rattle.std.specs.String.{string_bytes};
ghost use Rattle.cpa_top.specs.Answers.{Answers, OnBench, OnRecheck, OnVerify};
ghost use Rattle.cpa_top.specs.Answers.{IsSafeText, IsCalledText, IsUnknownText, IsConfirmedText};
ghost use Rattle.cpa_top.specs.Answers.{IsRefutedText, IsUndecidedText};
ghost use Rattle.cpa_top.specs.Calls.{call_with, output_by};

use crate::answers::{answer, deliver};
use cpa_iface::Analysis;
use cpa_outside::{Inputs, Sink};
use cpa_top_recheck::checks_tell;
use cpa_top_verdict::{false_calls_the_error, picks_are_places, true_is_safe};
use cpa_top_words::words_ask_for_one_job;
use std::alloc::Global;
use std::thread::Threads;

/// Does what the words ask, and answers the number of its status (`Status`).
///
/// The words are those after the program's own name. The commands today are
/// `verify PROGRAM [--config FILE]`, by the handed analyses that the configuration picks,
/// `replay PROGRAM INPUTS [--steps N] [--model NAME]`, `recheck PROGRAM REPORT [--config FILE]`,
/// which asks no analysis, and `bench N`. A program is read in the data model of the configuration,
/// that of a replay in the one that is named, else in LP64. All output goes to `out` in one
/// `write_whole`. Analyses of several types are handed in as one type, `Handed` of `cpa_composite`.
pub fn run<R: Threads + Sync, A: Analysis, I: Inputs, K: Sink>(
    rt: &R,
    alloc: Global,
    words: Vec<String>,
    analyses: Vec<A>,
    inputs: &mut I,
    out: &mut K,
) -> u8
    // TRUE: no execution calls reach_error, and every reachable state lies in a printed entry.
    ensures safe { result ≡ 0 → OnVerify IsSafeText
        (call_with A.meaning I.bytes_of I.faults_of (map string_bytes words.items) analyses.items
        inputs.old inputs.new) (output_by K.written K.faults out.old out.new) }
    // FALSE: the execution on the printed inputs calls reach_error.
    ensures called { result ≡ 1 → OnVerify IsCalledText
        (call_with A.meaning I.bytes_of I.faults_of (map string_bytes words.items) analyses.items
        inputs.old inputs.new) (output_by K.written K.faults out.old out.new) }
    // UNKNOWN: a budget was spent, or a path that has no run adds no precision.
    ensures unknown { result ≡ 2 → OnVerify IsUnknownText
        (call_with A.meaning I.bytes_of I.faults_of (map string_bytes words.items) analyses.items
        inputs.old inputs.new) (output_by K.written K.faults out.old out.new) }
    // CONFIRMED: the entries of the report are a cover of the program, so no execution calls
    // reach_error.
    ensures confirmed { result ≡ 0 → OnRecheck IsConfirmedText
        (call_with A.meaning I.bytes_of I.faults_of (map string_bytes words.items) analyses.items
        inputs.old inputs.new) (output_by K.written K.faults out.old out.new) }
    // REFUSED: the printed state breaks the least obligation of the entries that is not met, so
    // they are no cover, and those of no TRUE answer on the program.
    ensures refuted { result ≡ 1 → OnRecheck IsRefutedText
        (call_with A.meaning I.bytes_of I.faults_of (map string_bytes words.items) analyses.items
        inputs.old inputs.new) (output_by K.written K.faults out.old out.new) }
    // UNKNOWN of a recheck: a budget was spent on the named obligation, and all lesser ones are
    // met.
    ensures undecided { result ≡ 2 → OnRecheck IsUndecidedText
        (call_with A.meaning I.bytes_of I.faults_of (map string_bytes words.items) analyses.items
        inputs.old inputs.new) (output_by K.written K.faults out.old out.new) }
    // bench: the line has the counts and the verdict of an answer on the text of a measurement;
    // where it is TRUE, no execution of this text calls reach_error.
    ensures measured { result ≤ 2 → OnBench
        (call_with A.meaning I.bytes_of I.faults_of (map string_bytes words.items) analyses.items
        inputs.old inputs.new) (output_by K.written K.faults out.old out.new) result }
    // Each status has its cause and its text.
    ensures answers { Answers
        (call_with A.meaning I.bytes_of I.faults_of (map string_bytes words.items) analyses.items
        inputs.old inputs.new) (output_by K.written K.faults out.old out.new) result }
{
    words_ask_for_one_job();
    picks_are_places();
    true_is_safe();
    false_calls_the_error();
    checks_tell();
    let answer = answer(rt, alloc, words.as_slice(), analyses, inputs);
    deliver(&answer, out)
}
