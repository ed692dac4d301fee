//! What a call comes to, and how it is written (`MayAnswer`, `Answers` of `specs/Answers.antt`);
//! shown in `proofs/Answering.antt`.
ghost use Rattle.std.specs.Prelude.{◌≡◌, map};
ghost use Rattle.std.specs.String.{string_bytes};
ghost use Rattle.cpa_top.specs.Answers.{MayAnswer, IsDelivered};
ghost use Rattle.cpa_top.specs.Calls.{call_with, output_by};
ghost use Rattle.cpa_top_jobs.specs.Refusals.{status_of, text_of};

use cpa_iface::Analysis;
use cpa_outside::{Inputs, Sink, write_whole};
use cpa_top_jobs::{Conclusion, Refusal, Status, bench, recheck, replay, verify};
use cpa_top_words::{Job, WordsError, read_words, words_ask_for_small_benches};
use std::alloc::Global;
use std::thread::Threads;

/// What the call comes to, before anything is written.
pub(crate) fn answer<R: Threads + Sync, A: Analysis, I: Inputs>(
    rt: &R,
    alloc: Global,
    words: &[String],
    analyses: Vec<A>,
    inputs: &mut I,
) -> Result<Conclusion, Refusal>
    ensures { MayAnswer
        (call_with A.meaning I.bytes_of I.faults_of (map string_bytes words.now) analyses.items
        inputs.old inputs.new)
        (status_of result) (text_of result) }
{
    words_ask_for_small_benches();
    match read_words(alloc, words) {
        Ok(Job::Verify { program, config }) => verify(alloc, program, config, analyses, inputs),
        Ok(
            Job::Replay {
                program,
                inputs: list,
                steps,
                model,
            },
        ) => replay(alloc, program, list, steps, model, inputs),
        Ok(
            Job::Recheck {
                program,
                report,
                config,
            },
        ) => recheck(rt, alloc, program, report, config, analyses, inputs),
        Ok(Job::Bench { count }) => bench(alloc, count, analyses),
        Err(WordsError::Refused) => Err(Refusal::Usage),
        Err(WordsError::OutOfMemory) => Err(Refusal::OutOfMemory),
    }
}

/// The status of an answer.
fn status(answer: &Result<Conclusion, Refusal>) -> Status
    ensures { result ≡ status_of answer.now }
{
    match answer {
        Ok(conclusion) => conclusion.status,
        Err(refusal) => refusal.status(),
    }
}

/// The text of an answer.
fn text(answer: &Result<Conclusion, Refusal>) -> &[u8]
    ensures { result.now ≡ text_of answer.now }
{
    match answer {
        Ok(conclusion) => conclusion.text.as_slice(),
        Err(refusal) => refusal.line().as_bytes(),
    }
}

/// Writes a text, and gives the number of its status, or of that of a failed write.
pub fn deliver_text<K: Sink>(status: Status, text: &[u8], out: &mut K) -> u8
    ensures { IsDelivered status text.now (output_by K.written K.faults out.old out.new) result }
{
    let status = match write_whole(out, text) {
        Ok(()) => status,
        Err(_) => Status::WriteFailed,
    };
    status.code()
}

/// Writes the answer's text, and gives the number of its status, or of that of a failed write.
pub fn deliver<K: Sink>(answer: &Result<Conclusion, Refusal>, out: &mut K) -> u8
    ensures { IsDelivered (status_of answer.now) (text_of answer.now)
        (output_by K.written K.faults out.old out.new) result }
{
    deliver_text(status(answer), text(answer), out)
}
